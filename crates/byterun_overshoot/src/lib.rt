// Runs of bytes written in steps of 32: what stands behind a run may be written over, where there is room for it.
#![tactic(auto)]

ghost use Rattle.std.specs.Prelude.{◌≡◌, ◌++◌, ◌+◌, ◌≤◌, length, take, drop, replicate};
ghost use Rattle.std.proofs.Math.Seq.{paste};

use byterun_copy::{copy_run, fill_run};

// Copies 32 bytes of src, from `from` on, into dst, from `at` on. All are read before one is written: so the code has no test whether the
// two slices share memory.
fn copy_step(src: &[u8], from: usize, dst: &mut [u8], at: usize)
    requires from_in_bounds { from + 32 ≤ length src.now }
    requires at_in_bounds { at + 32 ≤ length dst.old }
    ensures { dst.new ≡ paste dst.old at (drop from src.now) 32 }
{
    let mut bytes = [0; 32];
    bytes.copy_from_slice(&src[from..from + 32]);
    dst[at..at + 32].copy_from_slice(&bytes);
}

// Copies count bytes of src, from `from` on, into dst, from `at` on; what stands in dst behind them is free. Where there is room, it
// copies step by step, the last of which may reach behind the run.
pub fn copy_over(src: &[u8], from: usize, dst: &mut [u8], at: usize, count: usize)
    requires count_in_bounds { from + count ≤ length src.now }
    requires count_in_bounds_2 { at + count ≤ length dst.old }
    ensures { take (at + count) dst.new ≡ take at dst.old ++ take count (drop from src.now) }
{
    if src.len() - from - count < 32 || dst.len() - at - count < 32 {
        copy_run(src, from, dst, at, count);
        return;
    }
    copy_step(src, from, dst, at);
    for k in (32..count).step_by(32) {
        copy_step(src, from + k, dst, at + k);
    }
}

// Writes times bytes b into dst, from `at` on; what stands in dst behind them is free. Where there is room, it writes step by step, the
// last of which may reach behind the repeat.
pub fn fill_over(dst: &mut [u8], at: usize, times: usize, b: u8)
    requires { at + times ≤ length dst.old }
    ensures { take (at + times) dst.new ≡ take at dst.old ++ replicate times b }
{
    if dst.len() - at - times < 32 {
        fill_run(dst, at, times, b);
        return;
    }
    fill_run(dst, at, 32, b);
    for k in (32..times).step_by(32) {
        fill_run(dst, at + k, 32, b);
    }
}
