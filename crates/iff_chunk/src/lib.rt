// What is read of a chunk's header: its name, its size and the place after the chunk.
#![tactic(auto)]

ghost use Rattle.std.specs.Prelude.{◌≡◌, ◌+◌, ◌≤◌, ◌<◌, length};
ghost use Rattle.iff_chunk.specs.Chunks.{word, next_at};

use iff_name::Name;

// The size that the four bytes from p on give.
pub fn size_at(s: &[u8], p: usize) -> usize
    requires { p + 4 ≤ length s.now }
    ensures { (result ≡ word s.now p) × (result < 4294967296) }
{
    u32::from_be_bytes([s[p], s[p + 1], s[p + 2], s[p + 3]]) as usize
}

// The name that the four bytes from p on are: its number is read as a size is.
pub fn name_at(s: &[u8], p: usize) -> Name
    requires { p + 4 ≤ length s.now }
    ensures { result.code ≡ word s.now p }
{
    Name {
        code: size_at(s, p) as u32,
    }
}

// The place after the chunk at p, its pad included.
pub fn next_at(s: &[u8], p: usize) -> usize
    requires { p + 12 ≤ length s.now }
    ensures { (result ≡ next_at s.now p) × (p < result) × (result < p + 4294967305) }
{
    let z = size_at(s, p + 4);
    p + 8 + (z + 1) / 2 * 2
}
