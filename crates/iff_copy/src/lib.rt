// The clean copy of a file: no trailing bytes, every pad zero.
#![tactic(auto)]

ghost use Rattle.std.specs.Prelude.{◌≡◌, ◌++◌, ◌+◌, ◌≤◌, length, take, drop};
ghost use Rattle.iff_walk.specs.Order.{following};
ghost use Rattle.iff_walk.specs.Coming.{Sound};
ghost use Rattle.iff_copy.specs.Clean.{copy_of, copied_into};
ghost use Rattle.iff_copy.specs.Pads.{pad_zeroed};

use iff_refusal::{Reason, Refusal};

// Copies the first n bytes. (std's `copy_from_slice` would call the C library's `memmove`.)
fn copy_bytes(s: &[u8], n: usize, out: &mut [u8])
    requires { (n ≤ length s.now) × (n ≤ length out.old) }
    ensures { out.new ≡ take n s.now ++ drop n out.old }
{
    for i in 0..n {
        out[i] = s[i];
    }
}

// Makes the pad of the chunk at p zero, if it has one; gives the place of the next chunk in file order.
fn zero_pad(s: &[u8], p: usize, out: &mut [u8]) -> usize
    requires { (p + 8 ≤ length s.now) × (following s.now p ≤ length out.old) }
    ensures next { result ≡ following s.now p }
    ensures zeroed { out.new ≡ pad_zeroed s.now p out.old }
{
    if iff_rules::is_group(iff_chunk::name_at(s, p).kind()) {
        return p + 12;
    }
    let z = iff_chunk::size_at(s, p + 4);
    if z % 2 == 0 {
        return p + 8 + z;
    }
    out[p + 8 + z] = 0;
    p + 9 + z
}

// Makes every pad zero in a copy of a sound file that ends at `end`.
fn zero_pads(s: &[u8], end: usize, out: &mut [u8])
    requires { (Sound s.now end) × (end ≤ length out.old) × (take end out.old ≡ take end s.now) }
    ensures { out.new ≡ copied_into s.now out.old }
{
    let mut p = 0;
    while p < end {
        p = zero_pad(s, p, out);
    }
}

// The copy of a sound file that ends at `end`.
fn copy_sound(s: &[u8], end: usize, out: &mut [u8]) -> Result<usize, Refusal>
    requires { Sound s.now end }
    ensures is { result ≡ copy_of s.now (length out.old) }
    ensures copied { out.new ≡ copied_into s.now out.old }
{
    if out.len() < end {
        return Err(Reason::NoRoom.at(0));
    }
    copy_bytes(s, end, out);
    zero_pads(s, end, out);
    Ok(end)
}

// Writes the clean copy of a file into `out`. A refusal leaves `out` as it was, as do bytes after the copy.
pub fn clean_copy(s: &[u8], out: &mut [u8]) -> Result<usize, Refusal>
    ensures is { result ≡ copy_of s.now (length out.old) }
    ensures copied { out.new ≡ copied_into s.now out.old }
{
    let accepted = iff_tree::check(s)?;
    copy_sound(s, accepted.end, out)
}
