// Runs of bytes: copied from one slice into another, or one byte repeated.
#![tactic(auto)]

ghost use Rattle.std.specs.Prelude.{◌≡◌, [], ◌∷◌, ◌+◌, ◌≤◌, length, drop, replicate};
ghost use Rattle.std.proofs.Math.Seq.{paste};

// Writes three bytes into dst, from `at` on.
pub fn put_three(dst: &mut [u8], at: usize, a: u8, b: u8, c: u8)
    requires { at + 3 ≤ length dst.old }
    ensures { dst.new ≡ paste dst.old at (a ∷ b ∷ c ∷ []) 3 }
{
    dst[at] = a;
    dst[at + 1] = b;
    dst[at + 2] = c;
}

// Writes eight bytes into dst, from `at` on.
pub fn put_eight(dst: &mut [u8], at: usize, a: u8, b: u8, c: u8, d: u8, e: u8, f: u8, g: u8, h: u8)
    requires { at + 8 ≤ length dst.old }
    ensures { dst.new ≡ paste dst.old at (a ∷ b ∷ c ∷ d ∷ e ∷ f ∷ g ∷ h ∷ []) 8 }
{
    dst[at] = a;
    dst[at + 1] = b;
    dst[at + 2] = c;
    dst[at + 3] = d;
    dst[at + 4] = e;
    dst[at + 5] = f;
    dst[at + 6] = g;
    dst[at + 7] = h;
}

// Copies eight bytes of src, from `from` on, into dst, from `at` on. All are read before one is written: so it is one load and one store.
pub fn copy_eight(src: &[u8], from: usize, dst: &mut [u8], at: usize)
    requires from_in_bounds { from + 8 ≤ length src.now }
    requires at_in_bounds { at + 8 ≤ length dst.old }
    ensures { dst.new ≡ paste dst.old at (drop from src.now) 8 }
{
    let mut bytes = [0; 8];
    bytes.copy_from_slice(&src[from..from + 8]);
    dst[at..at + 8].copy_from_slice(&bytes);
}

// Copies the bytes of a run by eights, and tells how many it has copied.
fn copy_eights(src: &[u8], from: usize, dst: &mut [u8], at: usize, count: usize) -> usize
    requires count_in_bounds { from + count ≤ length src.now }
    requires count_in_bounds_2 { at + count ≤ length dst.old }
    ensures { (result ≤ count) × (dst.new ≡ paste dst.old at (drop from src.now) result) }
{
    let whole = count - count % 8;
    for k in (0..whole).step_by(8) {
        copy_eight(src, from + k, dst, at + k);
    }
    whole
}

// Copies the bytes of a run one by one.
fn copy_ones(src: &[u8], from: usize, dst: &mut [u8], at: usize, count: usize)
    requires count_in_bounds { from + count ≤ length src.now }
    requires count_in_bounds_2 { at + count ≤ length dst.old }
    ensures { dst.new ≡ paste dst.old at (drop from src.now) count }
{
    for k in 0..count {
        dst[at + k] = src[from + k];
    }
}

// Copies count bytes of src, from `from` on, into dst, from `at` on. (std's `copy_from_slice` would call the C library's `memmove`.)
pub fn copy_run(src: &[u8], from: usize, dst: &mut [u8], at: usize, count: usize)
    requires count_in_bounds { from + count ≤ length src.now }
    requires count_in_bounds_2 { at + count ≤ length dst.old }
    ensures { dst.new ≡ paste dst.old at (drop from src.now) count }
{
    let k = copy_eights(src, from, dst, at, count);
    copy_ones(src, from + k, dst, at + k, count - k);
}

// Writes times bytes b into dst, from `at` on.
pub fn fill_run(dst: &mut [u8], at: usize, times: usize, b: u8)
    requires { at + times ≤ length dst.old }
    ensures { dst.new ≡ paste dst.old at (replicate times b) times }
{
    dst[at..at + times].fill(b);
}
