// The checks of one chunk's header, with 01's numbers in 01's order.
#![tactic(auto)]

ghost use Rattle.std.specs.Prelude.{◌≡◌, ◌+◌, ◌≤◌, length};
ghost use Rattle.iff_name.specs.Name.{kind_of};
ghost use Rattle.iff_chunk.specs.Chunks.{word};
ghost use Rattle.iff_repeated_props.specs.Repeats.{Settled};
ghost use Rattle.iff_header.specs.Checks.{group_header_of, sized_header_of, header_of, Fitting, Opened};

use iff_chunk::{name_at, size_at};
use iff_name::Kind;
use iff_refusal::Reason;
use iff_repeated_props::second_prop;
use iff_rules::{Position, group_type, is_group, misplaced};

// A header that passes: of a chunk with so much data, or of a group with its size.
#[derive(Clone, Copy)]
pub enum Header {
    Leaf(usize),
    Group(Kind, usize),
}

// The checks 9 to 12, of a group of kind k and size z at p. No PROP before `fresh` is the second of its type.
fn group_header(
    s: &[u8],
    from: usize,
    k: Kind,
    z: usize,
    p: usize,
    levels: usize,
    fresh: usize,
) -> Result<Header, Reason>
    requires { (p + 8 + z ≤ length s.now) × (k ≡ kind_of (word s.now p)) × Settled s.now from p fresh }
    ensures is { result ≡ group_header_of levels s.now from k z p }
    ensures opened { Opened levels k z result }
{
    if levels == 0 {
        return Err(Reason::TooDeep);
    }
    if z < 4 {
        return Err(Reason::GroupTooShort);
    }
    let t = name_at(s, p + 8);
    if group_type(k, t) {
        if second_prop(s, k, from, p, t, fresh) {
            return Err(Reason::SecondProp);
        }
        return Ok(Header::Group(k, z));
    }
    Err(Reason::BadType)
}

// The checks 7 to 12, of the chunk of kind k at p, whose parent ends at e and has its members from `from` on.
fn sized_header(
    s: &[u8],
    from: usize,
    k: Kind,
    p: usize,
    e: usize,
    levels: usize,
    fresh: usize,
) -> Result<Header, Reason>
    requires { (p + 8 ≤ e) × (e ≤ length s.now) × (k ≡ kind_of (word s.now p)) × Settled s.now from p fresh }
    ensures is { result ≡ sized_header_of levels s.now from k p e }
    ensures fitting { Fitting levels s.now p e result }
{
    let room = e - p - 8;
    let z = size_at(s, p + 4);
    if room < z {
        return Err(Reason::SizeTooGreat);
    }
    if room < (z + 1) / 2 * 2 {
        return Err(Reason::NoPad);
    }
    if is_group(k) {
        return group_header(s, from, k, z, p, levels, fresh);
    }
    Ok(Header::Leaf(z))
}

// The checks of the chunk at p.
pub fn judge_header(
    s: &[u8],
    from: usize,
    w: Position,
    p: usize,
    e: usize,
    levels: usize,
    fresh: usize,
) -> Result<Header, Reason>
    requires { (p ≤ e) × (e ≤ length s.now) × Settled s.now from p fresh }
    ensures is { result ≡ header_of levels s.now from w p e }
    ensures fitting { Fitting levels s.now p e result }
{
    if e - p < 8 {
        return Err(Reason::HeaderCut);
    }
    let n = name_at(s, p);
    if n.is_well_formed() {
        if n.is_version() {
            return Err(Reason::VersionName);
        }
        let k = n.kind();
        if misplaced(w, n, k) {
            return Err(Reason::Misplaced);
        }
        return sized_header(s, from, k, p, e, levels, fresh);
    }
    Err(Reason::BadName)
}
