// The packer of one row by ByteRun1: that the result fits is settled before a byte is written.
#![tactic(auto)]

ghost use Rattle.std.specs.Prelude.{◌≡◌, ◌+◌, ◌-◌, ◌≤◌, ◌∷◌, [], ◌++◌, length, take, drop, ltb};
ghost use Rattle.std.proofs.Math.Seq.{paste};
ghost use Rattle.byterun_pack.specs.Pack.{packed, pack_of, out_after};

use byterun_pieces::{Piece, piece_at, plain_at, same_at, three_at};
use iff_refusal::Reason;

// The length of the packed row. It counts without `piece_at`, which has one caller and so is compiled into its loop.
pub fn packed_len(row: &[u8]) -> usize
    ensures { result ≡ length (packed row.now) }
{
    let mut i = 0;
    let mut total = 0;
    while i < row.len() {
        if three_at(row, i) {
            let count = same_at(row, i, row[i]);
            i += count;
            total += 2;
        } else {
            let count = plain_at(row, i);
            i += count;
            total += 1 + count;
        }
    }
    total
}

// Writes the code and the byte of a repeat.
fn put_repeat(out: &mut [u8], at: usize, count: usize, b: u8)
    requires { (2 ≤ count) × (count ≤ 128) × (at + 2 ≤ length out.old) }
    ensures { out.new ≡ paste out.old at ((257 - count) ∷ b ∷ []) 2 }
{
    let code = (257 - count) as u8;
    out[at] = code;
    out[at + 1] = b;
}

// Writes the code of a literal, and its bytes from the row.
fn put_literal(out: &mut [u8], at: usize, row: &[u8], i: usize, count: usize)
    requires { (1 ≤ count) × (count ≤ 128) × (i + count ≤ length row.now) × (at + 1 + count ≤ length out.old) }
    ensures { out.new ≡ paste out.old at ((count - 1) ∷ take count (drop i row.now)) (1 + count) }
{
    let code = (count - 1) as u8;
    out[at] = code;
    byterun_copy::copy_run(row, i, out, at + 1, count);
}

// Writes the packed row, which fits, to the start of out, and tells its length.
pub fn pack_into(row: &[u8], out: &mut [u8]) -> usize
    requires { length (packed row.now) ≤ length out.old }
    ensures is { result ≡ length (packed row.now) }
    ensures bytes { out.new ≡ packed row.now ++ drop (length (packed row.now)) out.old }
{
    let mut from = 0;
    let mut at = 0;
    while from < row.len() {
        match piece_at(row, from) {
            Piece::Repeat(count) => {
                put_repeat(out, at, count, row[from]);
                from += count;
                at += 2;
            }
            Piece::Literal(count) => {
                put_literal(out, at, row, from, count);
                from += count;
                at += 1 + count;
            }
        }
    }
    at
}

// Whether the packed row is longer than the room. Where the room is enough for any row, nothing is counted.
fn lacks_room(row: &[u8], room: usize) -> bool
    requires { length row.now ≤ 8192 }
    ensures { result ≡ ltb room (length (packed row.now)) }
{
    let n = row.len();
    if n + (n + 127) / 128 <= room {
        return false;
    }
    room < packed_len(row)
}

// Packs a row of 1 to 8,192 bytes into out; bytes after the result stay, and a refusal changes nothing.
pub fn pack_row(row: &[u8], out: &mut [u8]) -> Result<usize, Reason>
    ensures is { result ≡ pack_of row.now (length out.old) }
    ensures bytes { out.new ≡ out_after (pack_of row.now (length out.old)) row.now out.old }
{
    let n = row.len();
    if n == 0 {
        return Err(Reason::RowLength);
    }
    if 8192 < n {
        return Err(Reason::RowLength);
    }
    if lacks_room(row, out.len()) {
        return Err(Reason::NoRoom);
    }
    Ok(pack_into(row, out))
}
