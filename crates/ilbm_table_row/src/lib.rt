// One picture's row in the table of pictures.
#![tactic(auto)]

ghost use Rattle.std.specs.Prelude.{◌≡◌, [], ◌∷◌, ◌++◌, ◌+◌, ◌≤◌, length};
ghost use Rattle.ilbm_spec.specs.Names.{ILBM as ILBM-code};
ghost use Rattle.ilbm_find.specs.Seen.{FormIn};
ghost use Rattle.ilbm_table_row.specs.Put.{put_at, held_numbers, there_of, part_numbers, parts_numbers, no_parts, PutsPicture};

use ilbm_content::{Contents, Held};
use ilbm_find::view_form;
use ilbm_locate::Scope;
use ilbm_names::ILBM;
use ilbm_numbers::{origin_number, part_from, part_to, shared_place};
use ilbm_spec::Origin;

fn put_three(table: &mut [usize], at: usize, a: usize, b: usize, c: usize)
    requires { at + 3 ≤ length table.old }
    ensures { table.new ≡ put_at at (a ∷ b ∷ c ∷ []) table.old }
{
    table[at] = a;
    table[at + 1] = b;
    table[at + 2] = c;
}

fn put_four(table: &mut [usize], at: usize, a: usize, b: usize, c: usize, d: usize)
    requires { at + 4 ≤ length table.old }
    ensures { table.new ≡ put_at at (a ∷ b ∷ c ∷ d ∷ []) table.old }
{
    put_three(table, at, a, b, c);
    table[at + 3] = d;
}

// A property: its origin, the PROP's place, and where its data lies.
fn put_property(table: &mut [usize], at: usize, h: Held)
    requires { at + 4 ≤ length table.old }
    ensures { table.new ≡ put_at at (held_numbers h) table.old }
{
    put_four(
        table,
        at,
        origin_number(h.origin),
        shared_place(h.origin),
        part_from(h.part),
        part_to(h.part),
    );
}

fn put_two(table: &mut [usize], at: usize, one: Held, other: Held)
    requires { at + 8 ≤ length table.old }
    ensures { table.new ≡ put_at at (held_numbers one ++ held_numbers other) table.old }
{
    put_property(table, at, one);
    put_property(table, at + 4, other);
}

fn is_there(part: Option<(usize, usize)>) -> usize
    ensures { result ≡ there_of part }
{
    match part {
        None => 0,
        Some((_, _)) => 1,
    }
}

// The BODY: whether there is one, and where its data lies.
fn put_body(table: &mut [usize], at: usize, body: Option<(usize, usize)>)
    requires { at + 3 ≤ length table.old }
    ensures { table.new ≡ put_at at (part_numbers body) table.old }
{
    put_three(table, at, is_there(body), part_from(body), part_to(body));
}

// The six properties and the BODY.
fn put_parts(table: &mut [usize], at: usize, c: Contents)
    requires { at + 27 ≤ length table.old }
    ensures { table.new ≡ put_at at (parts_numbers c) table.old }
{
    put_two(table, at, c.bmhd, c.cmap);
    put_two(table, at + 8, c.grab, c.dest);
    put_two(table, at + 16, c.sprt, c.camg);
    put_body(table, at + 24, c.body);
}

// Nothing of a picture: what is told beside its refusal.
fn no_parts() -> Contents
    ensures { result ≡ no_parts }
{
    let none = Held {
        part: None,
        origin: Origin::Absent,
    };
    Contents {
        bmhd: none,
        cmap: none,
        grab: none,
        dest: none,
        sprt: none,
        camg: none,
        bodies: 0,
        body: None,
    }
}

// A whole row: the picture's answer, its FORM's place and type, and its parts.
fn put_row(table: &mut [usize], at: usize, number: usize, form: usize, c: Contents)
    requires { at + 30 ≤ length table.old }
    ensures { table.new ≡ put_at at ((number ∷ form ∷ ILBM-code ∷ []) ++ parts_numbers c) table.old }
{
    put_three(table, at, number, form, ILBM.code as usize);
    put_parts(table, at + 3, c);
}

// The row of the picture in the FORM at a place; of a refused one its answer, place and type.
pub fn put_picture(s: &[u8], form: usize, scope: &Scope, table: &mut [usize], at: usize)
    requires { (FormIn s.now form scope.now) × (at + 30 ≤ length table.old) }
    ensures { PutsPicture s.now form scope.now at table.old table.new }
{
    match view_form(s, form, scope) {
        Ok((c, _)) => put_row(table, at, 0, form, c),
        Err(r) => put_row(table, at, r.reason.number(), form, no_parts()),
    }
}
