// One plane row of a BODY, plain or packed by ByteRun1: what its codes ask for, and what reading it would answer.
#![tactic(auto)]

ghost use Rattle.std.specs.Prelude.{◌≡◌, ◌<◌};
ghost use Rattle.byterun_row.specs.ByteRun.{code_of, unpack_row, plain_row, row_of, answer_of};

use iff_refusal::{Reason, Refusal};

// What a code byte asks for: there is none; nothing; a copy; a repeat; a run that oversteps the row; a run whose data bytes are not all there.
#[derive(Clone, Copy)]
pub enum Code {
    Missing,
    Skip,
    Copy(usize),
    Repeat(u8, usize),
    Long,
    Cut,
}

// A byte as a count.
fn wide(x: u8) -> usize
    ensures { (result ≡ x) × (result < 256) }
{
    x as usize
}

// The code byte at i, with `left` bytes of the row left.
#[tactic(auto, using(crate::proofs::Codes::laws))]
pub fn code_at(body: &[u8], i: usize, left: usize) -> Code
    ensures { result ≡ code_of body.now i left }
{
    if body.len() <= i {
        return Code::Missing;
    }
    let c = wide(body[i]);
    if c == 128 {
        return Code::Skip;
    }
    let room = body.len() - (i + 1);
    if c < 128 {
        let count = c + 1;
        if left < count {
            return Code::Long;
        }
        if room < count {
            return Code::Cut;
        }
        return Code::Copy(count);
    }
    let times = 257 - c;
    if left < times {
        return Code::Long;
    }
    if room < 1 {
        return Code::Cut;
    }
    Code::Repeat(body[i + 1], times)
}

// Steps from code to code, with no byte written, until the row is full or a code is refused.
#[tactic(auto, using(crate::proofs::Steps::judging))]
fn judge_packed(body: &[u8], at: usize, n: usize) -> Result<usize, Refusal>
    ensures { result ≡ answer_of (unpack_row body.now at n) }
{
    let mut i = at;
    let mut left = n;
    while 0 < left {
        let code = code_at(body, i, left);
        match code {
            Code::Missing => return Err(Reason::BodyEnds.at(body.len())),
            Code::Skip => {
                i = i + 1;
            }
            Code::Copy(count) => {
                i = i + 1 + count;
                left = left - count;
            }
            Code::Repeat(_, times) => {
                i = i + 2;
                left = left - times;
            }
            Code::Long => return Err(Reason::RowOverstepped.at(i)),
            Code::Cut => return Err(Reason::BodyEnds.at(i)),
        }
    }
    Ok(i)
}

// A plain row is full if its n bytes are there.
#[tactic(auto, using(crate::proofs::Codes::laws))]
fn judge_plain(body: &[u8], at: usize, n: usize) -> Result<usize, Refusal>
    ensures { result ≡ answer_of (plain_row body.now at n) }
{
    if n == 0 {
        return Ok(at);
    }
    if body.len() <= at {
        return Err(Reason::BodyEnds.at(at));
    }
    if n <= body.len() - at {
        Ok(at + n)
    } else {
        Err(Reason::BodyEnds.at(at))
    }
}

// What reading a row of n bytes from `at` would answer.
pub fn judge_row(body: &[u8], at: usize, n: usize, compression: u8) -> Result<usize, Refusal>
    ensures { result ≡ answer_of (row_of compression body.now at n) }
{
    if compression == 0 {
        judge_plain(body, at, n)
    } else {
        judge_packed(body, at, n)
    }
}
