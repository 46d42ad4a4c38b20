// Flags for the types of one class: a place before which each PROP of that class is the first of its type.
#![tactic(auto)]

ghost use Rattle.std.specs.Prelude.{◌≡◌, ◌+◌, ◌-◌, ◌≤◌, ◌<◌, length, get_or, eqb};
ghost use Rattle.iff_name.specs.Name.{both};
ghost use Rattle.iff_chunk.specs.Chunks.{word};
ghost use Rattle.iff_type_flags.specs.Classes.{digit_of, class_of, slot_of, in_class, FreshIn, Marked};

use iff_chunk::{name_at, next_at};
use iff_name::Name;

// A byte of a type as a number below 37, any other byte as 37.
fn digit(b: u32) -> usize
    ensures { (result ≡ digit_of b) × (result < 38) }
{
    if (65 <= b) & (b <= 90) {
        return (b - 65) as usize;
    }
    if (48 <= b) & (b <= 57) {
        return (b - 22) as usize;
    }
    if b == 32 {
        return 36;
    }
    37
}

// Where the flag of a type of one class stands, by its last three bytes.
fn slot(t: Name) -> usize
    ensures { (result ≡ slot_of t.code) × (result < 27436) }
{
    let b = digit(t.code / 65536 % 256);
    let c = digit(t.code / 256 % 256);
    let d = digit(t.code % 256);
    b % 19 * 1444 + c * 38 + d
}

// The class of a type: by its first byte, and by which half of the bytes its second is in.
fn class_of(t: Name) -> usize
    ensures { result ≡ class_of t.code }
{
    let a = digit(t.code / 16777216);
    let b = digit(t.code / 65536 % 256);
    a + b / 19 * 38
}

// Whether a PROP stands at p whose type is of this class.
fn in_class(s: &[u8], p: usize, class: usize) -> bool
    requires { p + 12 ≤ length s.now }
    ensures { result ≡ in_class class s.now p }
{
    if name_at(s, p) == Name::PROP {
        class_of(name_at(s, p + 8)) == class
    } else {
        false
    }
}

// Flags the type of the PROP at p, if it is of this class; whether the flag was set before.
fn flagged(s: &[u8], p: usize, class: usize, flags: &mut [u8; 27436]) -> bool
    requires { (p + 12 ≤ length s.now) × (length flags.old ≡ 27436) }
    ensures is { result ≡ both (in_class class s.now p) (eqb (get_or flags.old (slot_of (word s.now (p + 8))) 0) 1) }
    ensures marked { Marked (in_class class s.now p) (slot_of (word s.now (p + 8))) flags.old flags.new }
{
    if in_class(s, p, class) {
        let i = slot(name_at(s, p + 8));
        let before = flags[i];
        flags[i] = 1;
        before == 1
    } else {
        false
    }
}

// A place, `limit` at most, before which each PROP of this class is the first of its type from `from` on.
pub fn fresh_in_class(s: &[u8], from: usize, limit: usize, class: usize) -> usize
    requires { limit ≤ length s.now - 11 }
    ensures within { result ≤ limit }
    ensures fresh { FreshIn class s.now from result }
{
    let mut flags = [0u8; 27436];
    let mut q = from;
    while q < limit {
        if flagged(s, q, class, &mut flags) {
            return q;
        }
        q = next_at(s, q);
    }
    limit
}
