// Counts the pictures of a file, by one pass over its chunks in file order.
#![tactic(auto)]

ghost use Rattle.std.specs.Prelude.{◌≡◌, ◌+◌, ◌<◌, Ok};
ghost use Rattle.iff_walk.specs.Order.{following};
ghost use Rattle.iff_walk.specs.Coming.{Sound};
ghost use Rattle.ilbm_count.specs.Count.{count_of, form_at, Standing};

use iff_chunk::{name_at, size_at};
use iff_refusal::Refusal;
use iff_rules::is_group;
use iff_tree::check;
use ilbm_names::is_picture;

// 1 if the chunk at p is a picture, else 0.
fn form_at(s: &[u8], p: usize, end: usize) -> usize
    requires { (Standing s.now p end) × (p < end) }
    ensures { result ≡ form_at s.now p }
{
    let n = name_at(s, p);
    if is_group(n.kind()) {
        if is_picture(n, name_at(s, p + 8)) {
            return 1;
        }
    }
    0
}

// The next chunk in file order.
fn next_chunk(s: &[u8], p: usize, end: usize) -> usize
    requires { (Standing s.now p end) × (p < end) }
    ensures { result ≡ following s.now p }
{
    if is_group(name_at(s, p).kind()) {
        return p + 12;
    }
    let z = size_at(s, p + 4);
    p + 8 + (z + 1) / 2 * 2
}

pub fn count_sound(s: &[u8], end: usize) -> usize
    requires { Sound s.now end }
    ensures { Ok result ≡ count_of s.now }
{
    let mut p = 0;
    let mut n = 0;
    while p < end {
        n = n + form_at(s, p, end);
        p = next_chunk(s, p, end);
    }
    n
}

// The number of pictures in any bytes.
pub fn count_pictures(s: &[u8]) -> Result<usize, Refusal>
    ensures { result ≡ count_of s.now }
{
    let accepted = check(s)?;
    Ok(count_sound(s, accepted.end))
}
