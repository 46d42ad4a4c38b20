// The members of one group of a sound file, by a loop over their places.
#![tactic(auto)]

ghost use Rattle.std.specs.Prelude.{◌≡◌, ◌<◌, ◌≤◌, Some};
ghost use Rattle.iff_name.specs.Name.{pick};
ghost use Rattle.ilbm_members.specs.Members.{Row, Tells};
ghost use Rattle.ilbm_members.specs.Gathers.{none_yet, taken_with, Gathers};

use iff_chunk::{name_at, size_at};
use iff_name::Name;
use ilbm_names::{BMHD, BODY, CAMG, CMAP, DEST, GRAB, SPRT};

// One member: its name, and where the next member stands.
#[derive(Clone, Copy)]
pub struct Sibling {
    pub name: Name,
    pub next: usize,
}

// The member at p of a group that ends at e.
pub fn sibling_at(s: &[u8], p: usize, e: usize) -> Sibling
    requires { (Row s.now p e) × (p < e) }
    ensures { Tells s.now p e result }
{
    let z = size_at(s, p + 4);
    Sibling {
        name: name_at(s, p),
        next: p + 8 + (z + 1) / 2 * 2,
    }
}

// Where the chunks stand that count among the members of a group, if there are any: the last of each property's name, and the first
// BODY; and how many BODYs there are.
#[derive(Clone, Copy)]
pub struct Gathered {
    pub bmhd: Option<usize>,
    pub cmap: Option<usize>,
    pub grab: Option<usize>,
    pub dest: Option<usize>,
    pub sprt: Option<usize>,
    pub camg: Option<usize>,
    pub body: Option<usize>,
    pub bodies: usize,
}

fn none_yet() -> Gathered
    ensures { result ≡ none_yet }
{
    Gathered {
        bmhd: None,
        cmap: None,
        grab: None,
        dest: None,
        sprt: None,
        camg: None,
        body: None,
        bodies: 0,
    }
}

fn newer(hit: bool, place: usize, old: Option<usize>) -> Option<usize>
    ensures { result ≡ pick hit (Some place) old }
{
    if hit { Some(place) } else { old }
}

fn one_if(hit: bool) -> usize
    ensures { (result ≡ pick hit 1 0) × (result ≤ 1) }
{
    if hit { 1 } else { 0 }
}

// The member of name n at q added to what was gathered before it. Properties after a BODY are left out unless the whole group counts.
fn taken(n: Name, q: usize, g: Gathered, whole: bool) -> Gathered
    requires { g.bodies < 16777216 }
    ensures { result ≡ taken_with n.code q g whole }
{
    let first = g.bodies == 0;
    let open = whole | first;
    let body = n == BODY;
    let mut next = Gathered {
        body: newer(first & body, q, g.body),
        bodies: g.bodies + one_if(body),
        ..g
    };
    if n == BMHD {
        next.bmhd = newer(open, q, g.bmhd);
        return next;
    }
    if n == CMAP {
        next.cmap = newer(open, q, g.cmap);
        return next;
    }
    if n == GRAB {
        next.grab = newer(open, q, g.grab);
        return next;
    }
    if n == DEST {
        next.dest = newer(open, q, g.dest);
        return next;
    }
    if n == SPRT {
        next.sprt = newer(open, q, g.sprt);
        return next;
    }
    if n == CAMG {
        next.camg = newer(open, q, g.camg);
        return next;
    }
    next
}

// What the members from p to e give, in one pass: the properties of a FORM end at its first BODY, those of a PROP don't.
pub fn gather(s: &[u8], p: usize, e: usize, whole: bool) -> Gathered
    requires { Row s.now p e }
    ensures { Gathers s.now p e whole result }
{
    let mut q = p;
    let mut g = none_yet();
    while q < e {
        let m = sibling_at(s, q, e);
        g = taken(m.name, q, g, whole);
        q = m.next;
    }
    g
}
