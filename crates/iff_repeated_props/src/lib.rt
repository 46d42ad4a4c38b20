// Whether a PROP is the second of its type in its LIST. For a long run of PROPs the types are flagged first, so that the walk need not
// look back from each.
#![tactic(auto)]

ghost use Rattle.std.specs.Prelude.{◌≡◌, ◌+◌, ◌-◌, ◌≤◌, length};
ghost use Rattle.iff_name.specs.Name.{kind_of};
ghost use Rattle.iff_chunk.specs.Chunks.{word};
ghost use Rattle.iff_rules.specs.Rules.{prop_at, prop_before, second_prop};
ghost use Rattle.iff_repeated_props.specs.Repeats.{Settled, Fresh};

use iff_chunk::{name_at, next_at};
use iff_name::{Kind, Name};
use iff_rules::Position;
use iff_type_flags::fresh_in_class;

// Where a run of PROPs and filler ends, and how many chunks it has.
#[derive(Clone, Copy)]
struct Run {
    end: usize,
    chunks: usize,
}

// Whether a PROP of type t stands at p.
fn prop_at(s: &[u8], p: usize, t: Name) -> bool
    requires { p + 12 ≤ length s.now }
    ensures { result ≡ prop_at s.now p t.code }
{
    (name_at(s, p) == Name::PROP) & (name_at(s, p + 8) == t)
}

// Whether a PROP of type t stands from `from` on and before p.
fn prop_before(s: &[u8], from: usize, p: usize, t: Name) -> bool
    requires { p + 12 ≤ length s.now }
    ensures { result ≡ prop_before s.now from p t.code }
{
    let mut q = from;
    while q < p {
        if prop_at(s, q, t) {
            return true;
        }
        q = next_at(s, q);
    }
    false
}

// The same of the PROPs of all classes. The last one is apart: a function that is called from two places stays a call, so its flags
// stand once on the stack and not in each level of the walk.
fn fresh_before(s: &[u8], from: usize, limit: usize) -> usize
    requires { limit ≤ length s.now - 11 }
    ensures { Fresh s.now from result }
{
    let mut r = fresh_in_class(s, from, limit, 75);
    for class in 0..75 {
        r = fresh_in_class(s, from, r, class);
    }
    r
}

// The run of PROPs and filler from `from` on, as far as `limit`.
fn prop_run(s: &[u8], from: usize, limit: usize) -> Run
    requires { limit ≤ length s.now - 11 }
    ensures { result.end ≤ limit }
{
    let mut q = from;
    let mut chunks: usize = 0;
    while q < limit {
        let n = name_at(s, q);
        if (n != Name::PROP) & (n != Name::FILLER) {
            return Run { end: q, chunks };
        }
        q = next_at(s, q);
        chunks = chunks + 1;
    }
    Run { end: limit, chunks }
}

// A place before which no PROP of the LIST whose members stand from `from` to e has the type of an earlier one; 0 if there are few.
fn fresh_in_list(s: &[u8], from: usize, e: usize) -> usize
    requires { e ≤ length s.now }
    ensures { Fresh s.now from result }
{
    if e < 12 {
        return 0;
    }
    let run = prop_run(s, from, e - 11);
    if run.chunks < 128 {
        return 0;
    }
    fresh_before(s, from, run.end)
}

// The same of any group: no other holds PROPs.
pub fn fresh_in_group(s: &[u8], w: Position, from: usize, e: usize) -> usize
    requires { e ≤ length s.now }
    ensures { Fresh s.now from result }
{
    match w {
        Position::InList => fresh_in_list(s, from, e),
        _ => 0,
    }
}

// Whether a PROP of the type t of the PROP at p stands before it: not if p is before `fresh`.
pub fn second_prop(s: &[u8], k: Kind, from: usize, p: usize, t: Name, fresh: usize) -> bool
    requires { (p + 12 ≤ length s.now) × (k ≡ kind_of (word s.now p)) × (t.code ≡ word s.now (p + 8)) × Settled s.now from p fresh }
    ensures { result ≡ second_prop k s.now from p t.code }
{
    match k {
        Kind::PROP => {
            if p < fresh {
                return false;
            }
            prop_before(s, from, p, t)
        }
        _ => false,
    }
}
