// Writes a plane row of a BODY, plain or packed by ByteRun1.
#![tactic(auto)]

ghost use Rattle.std.specs.Prelude.{◌≡◌, ◌≤◌, length, take};
ghost use Rattle.byterun_row.specs.ByteRun.{unpack_row, plain_row, row_of, filled, answer_of, bytes_after, IsFull};

use byterun_copy::copy_run;
use byterun_overshoot::{copy_over, fill_over};
use byterun_row::{Code, code_at, judge_row};
use iff_refusal::Refusal;

// Carries out the codes of a row of n bytes that is known to be whole; what stands behind them is free.
#[tactic(auto, using(crate::proofs::Steps::writing))]
fn write_packed(body: &[u8], at: usize, n: usize, row: &mut [u8]) -> usize
    requires n_in_bounds { n ≤ length row.old }
    requires full { IsFull (unpack_row body.now at n) }
    ensures { unpack_row body.now at n ≡ filled (take n row.new) result }
{
    let mut next = at;
    let mut done = 0;
    while done < n {
        let code = code_at(body, next, n - done);
        match code {
            Code::Missing => {
                return next;
            }
            Code::Skip => {
                next = next + 1;
            }
            Code::Copy(count) => {
                copy_over(body, next + 1, row, done, count);
                next = next + 1 + count;
                done = done + count;
            }
            Code::Repeat(b, times) => {
                fill_over(row, done, times, b);
                next = next + 2;
                done = done + times;
            }
            Code::Long => {
                return next;
            }
            Code::Cut => {
                return next;
            }
        }
    }
    next
}

// Copies a plain row of n bytes that is known to be whole; what stands behind them is free.
#[tactic(auto, using(crate::proofs::Plain::plain))]
fn write_plain(body: &[u8], at: usize, n: usize, row: &mut [u8]) -> usize
    requires n_in_bounds { n ≤ length row.old }
    requires full { IsFull (plain_row body.now at n) }
    ensures { plain_row body.now at n ≡ filled (take n row.new) result }
{
    if n == 0 {
        return at;
    }
    copy_run(body, at, row, 0, n);
    at + n
}

// Writes a row of n bytes that is known to be whole to the start of a buffer, where what stands behind it is free, and returns the place
// after it.
pub fn unpack_into(body: &[u8], at: usize, compression: u8, n: usize, buffer: &mut [u8]) -> usize
    requires n_in_bounds { n ≤ length buffer.old }
    requires full { IsFull (row_of compression body.now at n) }
    ensures { row_of compression body.now at n ≡ filled (take n buffer.new) result }
{
    if compression == 0 {
        write_plain(body, at, n, buffer)
    } else {
        write_packed(body, at, n, buffer)
    }
}

// Writes a row that is known to be whole, and returns the place after it.
pub fn write_row(body: &[u8], at: usize, compression: u8, row: &mut [u8]) -> usize
    requires { IsFull (row_of compression body.now at (length row.old)) }
    ensures { row_of compression body.now at (length row.old) ≡ filled row.new result }
{
    unpack_into(body, at, compression, row.len(), row)
}

// Reads a row; a refusal leaves it as it was.
pub fn read_row(body: &[u8], at: usize, compression: u8, row: &mut [u8]) -> Result<usize, Refusal>
    ensures is { result ≡ answer_of (row_of compression body.now at (length row.old)) }
    ensures bytes { row.new ≡ bytes_after (row_of compression body.now at (length row.old)) row.old }
{
    let next = judge_row(body, at, row.len(), compression)?;
    write_row(body, at, compression, row);
    Ok(next)
}
