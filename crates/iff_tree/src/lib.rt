// The chunk tree of EA IFF 85: any bytes are judged, with 01's numbers in 01's order.
#![tactic(auto)]

ghost use Rattle.std.specs.Prelude.{◌≡◌, ◌-◌, ◌≤◌, length};
ghost use Rattle.iff_rules.specs.declared.Position.TheVariants.{Outermost};
ghost use Rattle.iff_repeated_props.specs.Repeats.{Settled};
ghost use Rattle.iff_header.specs.Checks.{GroupFits};
ghost use Rattle.iff_tree.specs.Judge.{
  chunk_at,
  members_of,
  check_of,
  step_of,
  walked_of,
  group_of,
  verdict_of,
  Ahead,
  Counted,
};

use iff_chunk::name_at;
use iff_header::{Header, judge_header};
use iff_name::Kind;
use iff_refusal::{Reason, Refusal};
use iff_repeated_props::fresh_in_group;
use iff_rules::{Position, after, inside, is_section};

// What the check tells of a file that it accepts.
#[derive(Clone, Copy, Debug, PartialEq, Eq)]
pub struct Accepted {
    pub chunks: usize,
    pub end: usize,
    pub trailing: usize,
}

// After a chunk: the next one's position, the chunks so far and the next place.
type Next = (Position, usize, usize);

// The chunk at p, after n chunks.
#[cycle(enter_group_member)]
fn member(
    s: &[u8],
    from: usize,
    w: Position,
    p: usize,
    e: usize,
    levels: usize,
    n: usize,
    fresh: usize,
) -> Result<Next, Refusal>
    requires { (p ≤ e) × (e ≤ length s.now) × (n ≤ p) × Settled s.now from p fresh }
    ensures is { result ≡ step_of s.now w p n (chunk_at levels s.now from w p e) }
    ensures ahead { Ahead p e result }
{
    match judge_header(s, from, w, p, e, levels, fresh) {
        Err(reason) => Err(reason.at(p)),
        Ok(Header::Leaf(z)) => Ok((w, n + 1, p + 8 + (z + 1) / 2 * 2)),
        Ok(Header::Group(k, z)) => enter(s, w, k, z, p, e, levels, n),
    }
}

// The group at p, of kind k and size z, after n chunks.
#[cycle(enter_group_member)]
fn enter(
    s: &[u8],
    w: Position,
    k: Kind,
    z: usize,
    p: usize,
    e: usize,
    levels: usize,
    n: usize,
) -> Result<Next, Refusal>
    requires { (GroupFits levels s.now p e k z) × (e ≤ length s.now) × (n ≤ p) }
    ensures is { result ≡ step_of s.now w p n (group_of (levels - 1) s.now p k z) }
    ensures ahead { Ahead p e result }
{
    let count = group(s, inside(k), p + 12, p + 8 + z, levels - 1, n + 1)?;
    Ok((after(w, k), count, p + 8 + (z + 1) / 2 * 2))
}

// The members of a group, from `from` to e, after n chunks.
#[cycle(enter_group_member)]
fn group(
    s: &[u8],
    w: Position,
    from: usize,
    e: usize,
    levels: usize,
    n: usize,
) -> Result<usize, Refusal>
    requires { (from ≤ e) × (e ≤ length s.now) × (n ≤ from) }
    ensures is { result ≡ walked_of n (members_of levels s.now from w from e) }
    ensures counted { Counted e result }
{
    let fresh = fresh_in_group(s, w, from, e);
    let mut p = from;
    let mut count = n;
    let mut at = w;
    while p < e {
        (at, count, p) = member(s, from, at, p, e, levels, count, fresh)?;
    }
    Ok(count)
}

fn outermost(s: &[u8]) -> Result<Accepted, Refusal>
    ensures { result ≡ verdict_of s.now (chunk_at 16 s.now 0 Outermost 0 (length s.now)) }
{
    let (_, chunks, end) = member(s, 0, Position::Outermost, 0, s.len(), 16, 0, 0)?;
    Ok(Accepted {
        chunks,
        end,
        trailing: s.len() - end,
    })
}

// Judges any bytes: the chunks, the end of the outermost one and the bytes after it, or a refusal.
#[tactic(auto, unfolding(crate::specs::Judge::read_file))]
pub fn check(s: &[u8]) -> Result<Accepted, Refusal>
    ensures { result ≡ check_of s.now }
{
    if 16777216 < s.len() {
        return Err(Reason::FileTooLong.at(0));
    }
    if s.len() < 4 {
        return Err(Reason::NotIff.at(0));
    }
    let n = name_at(s, 0);
    if n.is_version() {
        return Err(Reason::VersionName.at(0));
    }
    if is_section(n.kind()) {
        return outermost(s);
    }
    Err(Reason::NotIff.at(0))
}
