// The plane rows of a BODY: judged with no byte written, and written as a scan line once they are known to be sound.
#![tactic(auto)]

ghost use Rattle.std.specs.Prelude.{◌≡◌, ◌+◌, ◌*◌, ◌≤◌, length};
ghost use Rattle.iff_tree.specs.Judge.{found};
ghost use Rattle.ilbm_spec.specs.Rows.{row_length, rows_in_line, IsRead, rows_from, line_by, line_answer};
ghost use Rattle.ilbm_spread.specs.Spread.{IsSpread};
ghost use Rattle.ilbm_gather.specs.Buffer.{rows_in};

use byterun_row::judge_row;
use byterun_unpack::unpack_into;
use iff_refusal::Refusal;
use ilbm_gather::gather;
use ilbm_spread::spread_table;

// The bytes of a plane row.
pub fn row_length(w: usize) -> usize
    requires { w ≤ 65535 }
    ensures { (result ≡ row_length w) × (result ≤ 8192) × (w ≤ result * 8) }
{
    2 * ((w + 15) / 16)
}

// The rows of a scan line: one for each plane, and the mask row.
pub fn row_count(planes: usize, masking: u8) -> usize
    requires { planes ≤ 8 }
    ensures { (result ≡ rows_in_line planes masking) × (planes ≤ result) × (result ≤ 9) }
{
    if masking == 1 { planes + 1 } else { planes }
}

// Steps from row to row, with no byte written.
#[tactic(auto, using(crate::proofs::Judging::judging))]
pub fn judge_rows(
    body: &[u8],
    at: usize,
    n: usize,
    rows: usize,
    compression: u8,
) -> Result<usize, Refusal>
    ensures { result ≡ line_answer (rows_from compression body.now n rows at) }
{
    let mut q = at;
    for _ in 0..rows {
        q = judge_row(body, q, n, compression)?;
    }
    Ok(q)
}

// Writes rows that are known to be sound into the buffer, one after the other, and returns the place after them.
pub fn write_rows(
    body: &[u8],
    at: usize,
    n: usize,
    rows: usize,
    compression: u8,
    buffer: &mut [u8],
) -> usize
    requires n_in_bounds { rows * n ≤ length buffer.old }
    requires read { IsRead (rows_from compression body.now n rows at) }
    ensures { rows_from compression body.now n rows at ≡ found ((rows_in n rows 0 buffer.new), result) }
{
    let mut q = at;
    for k in 0..rows {
        let from = k * n;
        q = unpack_into(body, q, compression, n, &mut buffer[from..]);
    }
    q
}

// Writes a scan line that is known to be sound, by the table of spread bytes, and returns the place after it. Plain rows are gathered
// from where they lie, packed ones from the buffer.
pub fn write_line_by(
    table: &[u64; 256],
    body: &[u8],
    at: usize,
    w: usize,
    planes: usize,
    rows: usize,
    compression: u8,
    buffer: &mut [u8],
    row: &mut [u8],
) -> usize
    requires spread { IsSpread table.now }
    requires w_bound { (w ≤ 65535) × (planes ≤ 8) × (planes ≤ rows) }
    requires w_in_bounds { (rows * row_length w ≤ length buffer.old) × (length row.old ≡ w) }
    requires read { IsRead (rows_from compression body.now (row_length w) rows at) }
    ensures { line_by compression w planes rows body.now at ≡ found (row.new, result) }
{
    let n = row_length(w);
    if compression == 0 {
        if at <= body.len() {
            gather(table, &body[at..], n, planes, row);
            return at + rows * n;
        }
    }
    let next = write_rows(body, at, n, rows, compression, buffer);
    gather(table, buffer, n, planes, row);
    next
}

// Writes a scan line that is known to be sound, and returns the place after it.
pub fn write_line(
    body: &[u8],
    at: usize,
    w: usize,
    planes: usize,
    rows: usize,
    compression: u8,
    buffer: &mut [u8],
    row: &mut [u8],
) -> usize
    requires w_bound { (w ≤ 65535) × (planes ≤ 8) × (planes ≤ rows) }
    requires w_in_bounds { (rows * row_length w ≤ length buffer.old) × (length row.old ≡ w) }
    requires read { IsRead (rows_from compression body.now (row_length w) rows at) }
    ensures { line_by compression w planes rows body.now at ≡ found (row.new, result) }
{
    let table = spread_table();
    write_line_by(&table, body, at, w, planes, rows, compression, buffer, row)
}
