// The table of a file's pictures, filled in one walk over its chunks.
#![tactic(auto)]

ghost use Rattle.std.specs.Prelude.{◌+◌, ◌<◌, ◌≤◌, ◌≡◌, length};
ghost use Rattle.iff_walk.specs.Coming.{Sound};
ghost use Rattle.ilbm_spec.specs.Table.{table_of, table_answer, table_after};
ghost use Rattle.ilbm_members.specs.Members.{Row};
ghost use Rattle.ilbm_locate.specs.Scopes.{Scoped};
ghost use Rattle.ilbm_locate.specs.Spots.{GroupAt};
ghost use Rattle.ilbm_find.specs.Seen.{FormIn};
ghost use Rattle.ilbm_table.specs.Filling.{Keeps, FillsForm, FillsOwn, FillsInside, FillsChunk, FillsMembers, Answers};

use iff_chunk::{name_at, size_at};
use iff_name::Name;
use iff_refusal::{Reason, Refusal};
use iff_rules::is_section;
use iff_tree::check;
use ilbm_count::count_sound;
use ilbm_locate::{Scope, inner_scope, none_shared};
use ilbm_members::sibling_at;
use ilbm_names::is_picture;
use ilbm_table_row::put_picture;

// The row of the FORM at q, if there is room for it. Returns where the next row goes.
fn put_form(s: &[u8], q: usize, scope: &Scope, table: &mut [usize], at: usize) -> usize
    requires { (FormIn s.now q scope.now) × (at ≤ length table.old) }
    ensures { (FillsForm s.now q scope.now table.old at table.new result)
        × (Keeps table.old table.new result) }
{
    if table.len() - at < 30 {
        return at;
    }
    put_picture(s, q, scope, table, at);
    at + 30
}

// The row of the group at q, if it is a picture.
fn put_own(s: &[u8], q: usize, e: usize, scope: &Scope, table: &mut [usize], at: usize) -> usize
    requires { (GroupAt s.now q e) × (Scoped s.now scope.now) × (at ≤ length table.old) }
    ensures { (FillsOwn s.now q e scope.now table.old at table.new result)
        × (Keeps table.old table.new result) }
{
    if is_picture(name_at(s, q), name_at(s, q + 8)) {
        return put_form(s, q, scope, table, at);
    }
    at
}

// The rows of the pictures inside the group at q.
#[cycle(enter_fill_open_visit)]
fn enter(s: &[u8], q: usize, e: usize, scope: &Scope, table: &mut [usize], at: usize) -> usize
    requires { (GroupAt s.now q e) × (Scoped s.now scope.now) × (at ≤ length table.old) }
    ensures { (FillsInside s.now q e scope.now table.old at table.new result)
        × (Keeps table.old table.new result) }
{
    let end = q + 8 + size_at(s, q + 4);
    let name = name_at(s, q);
    if name.code == Name::LIST.code {
        let inner = inner_scope(s, q, e, scope);
        return fill(s, q + 12, end, &inner, table, at);
    }
    fill(s, q + 12, end, scope, table, at)
}

// The rows of the group at q and of the pictures inside it.
#[cycle(enter_fill_open_visit)]
fn open(s: &[u8], q: usize, e: usize, scope: &Scope, table: &mut [usize], at: usize) -> usize
    requires { (GroupAt s.now q e) × (Scoped s.now scope.now) × (at ≤ length table.old) }
    ensures { (FillsChunk s.now q e scope.now table.old at table.new result)
        × (Keeps table.old table.new result) }
{
    let next = put_own(s, q, e, scope, table, at);
    enter(s, q, e, scope, table, next)
}

// The same for any member: leaves and PROPs hold no pictures.
#[cycle(enter_fill_open_visit)]
fn visit(s: &[u8], q: usize, e: usize, scope: &Scope, table: &mut [usize], at: usize) -> usize
    requires { (Row s.now q e) × (q < e) × (Scoped s.now scope.now) × (at ≤ length table.old) }
    ensures { (FillsChunk s.now q e scope.now table.old at table.new result)
        × (Keeps table.old table.new result) }
{
    let n = name_at(s, q);
    if is_section(n.kind()) {
        return open(s, q, e, scope, table, at);
    }
    at
}

// The rows of all pictures from p to e.
#[cycle(enter_fill_open_visit)]
fn fill(s: &[u8], p: usize, e: usize, scope: &Scope, table: &mut [usize], at: usize) -> usize
    requires { (Row s.now p e) × (Scoped s.now scope.now) × (at ≤ length table.old) }
    ensures { (FillsMembers s.now p e scope.now table.old at table.new result)
        × (Keeps table.old table.new result) }
{
    let mut q = p;
    let mut next = at;
    while q < e {
        next = visit(s, q, e, scope, table, next);
        q = sibling_at(s, q, e).next;
    }
    next
}

// The table of a sound file that ends at a place: 13 if it has fewer places than there are pictures.
fn fill_sound(s: &[u8], end: usize, table: &mut [usize]) -> Result<usize, Refusal>
    requires { Sound s.now end }
    ensures { Answers s.now table.old result table.new }
{
    let pictures = count_sound(s, end);
    if table.len() / 30 < pictures {
        return Err(Reason::TableTooShort.at(0));
    }
    fill(s, 0, end, &none_shared(), table, 0);
    Ok(pictures)
}

// Fills the table with the pictures of any bytes, 30 numbers to a picture; a refusal leaves it as it was.
pub fn fill_table(s: &[u8], table: &mut [usize]) -> Result<usize, Refusal>
    ensures answer { result ≡ table_answer (table_of s.now (length table.old)) }
    ensures numbers { table.new
        ≡ table_after (table_of s.now (length table.old)) table.old }
{
    let accepted = check(s)?;
    fill_sound(s, accepted.end, table)
}
