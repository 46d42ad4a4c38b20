// The content of the picture in a FORM: each property that counts, with its origin, and the BODYs, as parts of the file.
#![tactic(auto)]

ghost use Rattle.std.specs.Prelude.{◌+◌};
ghost use Rattle.ilbm_members.specs.Members.{Row};
ghost use Rattle.ilbm_locate.specs.Scopes.{Scoped};
ghost use Rattle.ilbm_content.specs.Held.{Marked, Known, PartIs, OwnOrShared, ContentIs};

use iff_chunk::size_at;
use ilbm_locate::{Scope, Shared};
use ilbm_members::gather;
use ilbm_spec::Origin;

// A property's data, and where it comes from.
#[derive(Clone, Copy)]
pub struct Held {
    pub part: Option<(usize, usize)>,
    pub origin: Origin,
}

// The six properties, how many BODYs there are, and the first one's data.
#[derive(Clone, Copy)]
pub struct Contents {
    pub bmhd: Held,
    pub cmap: Held,
    pub grab: Held,
    pub dest: Held,
    pub sprt: Held,
    pub camg: Held,
    pub bodies: usize,
    pub body: Option<(usize, usize)>,
}

// The data of the chunk at a place, if there is one.
fn part_at(s: &[u8], place: Option<usize>) -> Option<(usize, usize)>
    requires { Marked s.now place }
    ensures { PartIs s.now place result }
{
    let place = place?;
    let size = size_at(s, place + 4);
    Some((place + 8, place + 8 + size))
}

// The property that a FORM has at a place, or else the shared one, if there is one.
fn property(s: &[u8], own: Option<usize>, other: Option<Shared>) -> Held
    requires { (Marked s.now own) × (Known s.now other) }
    ensures { OwnOrShared s.now own other result }
{
    if own.is_some() {
        return Held {
            part: part_at(s, own),
            origin: Origin::Own,
        };
    }
    match other {
        Some(shared) => Held {
            part: part_at(s, Some(shared.place)),
            origin: Origin::Shared(shared.prop),
        },
        None => Held {
            part: None,
            origin: Origin::Absent,
        },
    }
}

// The content of the FORM at a place, whose members end at e.
pub fn content_at(s: &[u8], form: usize, e: usize, scope: &Scope) -> Contents
    requires { (Row s.now (form + 12) e) × (Scoped s.now scope.now) }
    ensures { ContentIs s.now form e scope.now result }
{
    let g = gather(s, form + 12, e, false);
    Contents {
        bmhd: property(s, g.bmhd, scope.bmhd),
        cmap: property(s, g.cmap, scope.cmap),
        grab: property(s, g.grab, scope.grab),
        dest: property(s, g.dest, scope.dest),
        sprt: property(s, g.sprt, scope.sprt),
        camg: property(s, g.camg, scope.camg),
        bodies: g.bodies,
        body: part_at(s, g.body),
    }
}
