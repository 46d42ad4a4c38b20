// Finds the picture of a given number in a sound file, and what the PROPs around it share.
#![tactic(auto)]

ghost use Rattle.std.specs.Prelude.{◌+◌, ◌<◌, ◌≡◌};
ghost use Rattle.ilbm_spec.specs.Names.{is_shared_prop};
ghost use Rattle.ilbm_members.specs.Members.{Row};
ghost use Rattle.ilbm_locate.specs.Scopes.{none_shared, Scoped, Nearer, PropGives, ListGives, GivesInside};
ghost use Rattle.ilbm_locate.specs.Spots.{spot_of, Seeks, Visits, Enters, IsGroup, GroupAt};

use iff_chunk::{name_at, size_at};
use iff_name::Name;
use iff_rules::{is_group, is_section};
use ilbm_members::{gather, sibling_at};
use ilbm_names::{is_picture, is_shared_prop};
use std::ops::ControlFlow;

// A property that a PROP shares: the PROP's place, and the property's own.
#[derive(Clone, Copy)]
pub struct Shared {
    pub prop: usize,
    pub place: usize,
}

// What the PROPs around a chunk share: each property, if one of them has it.
#[derive(Clone, Copy)]
pub struct Scope {
    pub bmhd: Option<Shared>,
    pub cmap: Option<Shared>,
    pub grab: Option<Shared>,
    pub dest: Option<Shared>,
    pub sprt: Option<Shared>,
    pub camg: Option<Shared>,
}

// The FORM's place and what is shared there; or how many pictures are left to pass.
pub type Spot = ControlFlow<(usize, Scope), usize>;

// Outside every LIST nothing is shared.
pub fn none_shared() -> Scope
    ensures { result ≡ none_shared }
{
    Scope {
        bmhd: None,
        cmap: None,
        grab: None,
        dest: None,
        sprt: None,
        camg: None,
    }
}

// The same scope. (Field by field: a copy of the whole would be a call of the C library.)
fn same_scope(scope: &Scope) -> Scope
    ensures { result ≡ scope.now }
{
    Scope {
        bmhd: scope.bmhd,
        cmap: scope.cmap,
        grab: scope.grab,
        dest: scope.dest,
        sprt: scope.sprt,
        camg: scope.camg,
    }
}

// Puts a scope in the place of another.
fn put_scope(scope: &Scope, to: &mut Scope)
    ensures { to.new ≡ scope.now }
{
    to.bmhd = scope.bmhd;
    to.cmap = scope.cmap;
    to.grab = scope.grab;
    to.dest = scope.dest;
    to.sprt = scope.sprt;
    to.camg = scope.camg;
}

// Whether the member at q is a PROP that pictures share.
fn shared_prop_at(s: &[u8], q: usize, e: usize) -> bool
    requires { (Row s.now q e) × (q < e) }
    ensures { IsGroup s.now q e is_shared_prop result }
{
    let n = name_at(s, q);
    if is_group(n.kind()) {
        return is_shared_prop(n, name_at(s, q + 8));
    }
    false
}

// The property at a place in the PROP at q, or, where the PROP has none, the one shared further out.
fn nearer_of(q: usize, place: Option<usize>, outer: Option<Shared>) -> Option<Shared>
    ensures { Nearer q place outer result }
{
    match place {
        Some(place) => Some(Shared { prop: q, place }),
        None => outer,
    }
}

// What is shared beside the PROP at q, in the scope around its LIST: each property by itself.
fn prop_scope(s: &[u8], q: usize, e: usize, scope: &Scope) -> Scope
    requires { GroupAt s.now q e }
    ensures { PropGives s.now q scope.now result }
{
    let end = q + 8 + size_at(s, q + 4);
    let g = gather(s, q + 12, end, true);
    Scope {
        bmhd: nearer_of(q, g.bmhd, scope.bmhd),
        cmap: nearer_of(q, g.cmap, scope.cmap),
        grab: nearer_of(q, g.grab, scope.grab),
        dest: nearer_of(q, g.dest, scope.dest),
        sprt: nearer_of(q, g.sprt, scope.sprt),
        camg: nearer_of(q, g.camg, scope.camg),
    }
}

// What is shared among the members of a LIST from p to e, in the scope around it.
fn list_scope(s: &[u8], p: usize, e: usize, scope: &Scope) -> Scope
    requires { Row s.now p e }
    ensures { ListGives s.now p e scope.now result }
{
    let mut q = p;
    while q < e {
        if shared_prop_at(s, q, e) {
            return prop_scope(s, q, e, scope);
        }
        q = sibling_at(s, q, e).next;
    }
    same_scope(scope)
}

// What is shared among the members of the group at q.
pub fn inner_scope(s: &[u8], q: usize, e: usize, scope: &Scope) -> Scope
    requires { GroupAt s.now q e }
    ensures { GivesInside s.now q e scope.now result }
{
    if name_at(s, q).code == Name::LIST.code {
        let end = q + 8 + size_at(s, q + 4);
        return list_scope(s, q + 12, end, scope);
    }
    same_scope(scope)
}

// The k-th picture from here on inside the group at q; what is shared there is put into `found`.
#[cycle(enter_find_open_visit)]
fn enter(
    s: &[u8],
    q: usize,
    e: usize,
    scope: &Scope,
    k: usize,
    found: &mut Scope,
) -> ControlFlow<usize, usize>
    requires { (GroupAt s.now q e) × (Scoped s.now scope.now) }
    ensures { Enters s.now q e scope.now k (spot_of result found.new) }
{
    let end = q + 8 + size_at(s, q + 4);
    let name = name_at(s, q);
    if name.code == Name::LIST.code {
        let inner = inner_scope(s, q, e, scope);
        return find(s, q + 12, end, &inner, k, found);
    }
    find(s, q + 12, end, scope, k, found)
}

// The same for the group at q itself and what is inside it.
#[cycle(enter_find_open_visit)]
fn open(
    s: &[u8],
    q: usize,
    e: usize,
    scope: &Scope,
    k: usize,
    found: &mut Scope,
) -> ControlFlow<usize, usize>
    requires { (GroupAt s.now q e) × (Scoped s.now scope.now) }
    ensures { Visits s.now q e scope.now k (spot_of result found.new) }
{
    if is_picture(name_at(s, q), name_at(s, q + 8)) {
        if k == 0 {
            put_scope(scope, found);
            return ControlFlow::Break(q);
        }
        return enter(s, q, e, scope, k - 1, found);
    }
    enter(s, q, e, scope, k, found)
}

// The same for any member: leaves and PROPs hold no pictures.
#[cycle(enter_find_open_visit)]
fn visit(
    s: &[u8],
    q: usize,
    e: usize,
    scope: &Scope,
    k: usize,
    found: &mut Scope,
) -> ControlFlow<usize, usize>
    requires { (Row s.now q e) × (q < e) × (Scoped s.now scope.now) }
    ensures { Visits s.now q e scope.now k (spot_of result found.new) }
{
    let n = name_at(s, q);
    if is_section(n.kind()) {
        return open(s, q, e, scope, k, found);
    }
    ControlFlow::Continue(k)
}

// The same for all members from p to e.
#[cycle(enter_find_open_visit)]
fn find(
    s: &[u8],
    p: usize,
    e: usize,
    scope: &Scope,
    k: usize,
    found: &mut Scope,
) -> ControlFlow<usize, usize>
    requires { (Row s.now p e) × (Scoped s.now scope.now) }
    ensures { Seeks s.now p e scope.now k (spot_of result found.new) }
{
    let mut q = p;
    let mut left = k;
    while q < e {
        left = visit(s, q, e, scope, left, found)?;
        q = sibling_at(s, q, e).next;
    }
    ControlFlow::Continue(left)
}

// The k-th picture among the members from p to e.
pub fn seek(s: &[u8], p: usize, e: usize, scope: &Scope, k: usize) -> Spot
    requires { (Row s.now p e) × (Scoped s.now scope.now) }
    ensures { Seeks s.now p e scope.now k result }
{
    let mut found = none_shared();
    match find(s, p, e, scope, k, &mut found) {
        ControlFlow::Break(form) => ControlFlow::Break((form, same_scope(&found))),
        ControlFlow::Continue(left) => ControlFlow::Continue(left),
    }
}
