// A frame of a BODY: every plane row is judged before the first byte is written.
#![tactic(auto)]

ghost use Rattle.std.specs.Prelude.{◌≡◌, ◌+◌, ◌*◌, ◌≤◌, length};
ghost use Rattle.iff_tree.specs.Judge.{found};
ghost use Rattle.ilbm_spread.specs.Spread.{IsSpread};
ghost use Rattle.ilbm_spec.specs.Rows.{row_length, rows_in_line, IsRead, lines_by, line_answer, bytes_after};

use iff_refusal::Refusal;
use ilbm_plane_rows::{judge_rows, row_count, row_length, write_line_by};
use ilbm_spread::spread_table;

// Writes scan lines that are known to be sound, one after the other, and returns the place after them.
fn write_lines(
    table: &[u64; 256],
    body: &[u8],
    w: usize,
    h: usize,
    planes: usize,
    rows: usize,
    compression: u8,
    buffer: &mut [u8],
    frame: &mut [u8],
) -> usize
    requires spread { IsSpread table.now }
    requires w_bound { (w ≤ 65535) × (planes ≤ 8) × (planes ≤ rows) }
    requires w_in_bounds { (rows * row_length w ≤ length buffer.old) × (length frame.old ≡ w * h) }
    requires read { IsRead (lines_by compression w planes rows body.now h 0) }
    ensures { lines_by compression w planes rows body.now h 0 ≡ found (frame.new, result) }
{
    let mut q = 0;
    for y in 0..h {
        let from = y * w;
        let to = from + w;
        q = write_line_by(
            table,
            body,
            q,
            w,
            planes,
            rows,
            compression,
            buffer,
            &mut frame[from..to],
        );
    }
    q
}

// Writes the scan lines of a frame that is known to be sound. The table of spread bytes is made once. Most lines have room in a small
// buffer, which is sooner cleared.
fn write_frame(
    body: &[u8],
    w: usize,
    h: usize,
    planes: usize,
    rows: usize,
    compression: u8,
    frame: &mut [u8],
) -> usize
    requires w_bound { (w ≤ 65535) × (planes ≤ 8) × (planes ≤ rows) × (rows ≤ 9) }
    requires frame_len { length frame.old ≡ w * h }
    requires read { IsRead (lines_by compression w planes rows body.now h 0) }
    ensures { lines_by compression w planes rows body.now h 0 ≡ found (frame.new, result) }
{
    let table = spread_table();
    if w <= 4096 {
        let mut buffer = [0u8; 4608];
        write_lines(
            &table,
            body,
            w,
            h,
            planes,
            rows,
            compression,
            &mut buffer,
            frame,
        )
    } else {
        let mut buffer = [0u8; 73728];
        write_lines(
            &table,
            body,
            w,
            h,
            planes,
            rows,
            compression,
            &mut buffer,
            frame,
        )
    }
}

// The h scan lines of a frame from the BODY's start.
pub fn scan_frame(
    body: &[u8],
    w: usize,
    h: usize,
    planes: usize,
    masking: u8,
    compression: u8,
    frame: &mut [u8],
) -> Result<usize, Refusal>
    requires w_bound { (w ≤ 65535) × (h ≤ 65535) × (planes ≤ 8) }
    requires frame_len { length frame.old ≡ w * h }
    ensures is { result ≡ line_answer (lines_by compression w planes (rows_in_line planes masking) body.now h 0) }
    ensures bytes { frame.new ≡ bytes_after (lines_by compression w planes (rows_in_line planes masking) body.now h 0) frame.old }
{
    let n = row_length(w);
    let rows = row_count(planes, masking);
    let end = judge_rows(body, 0, n, h * rows, compression)?;
    write_frame(body, w, h, planes, rows, compression, frame);
    Ok(end)
}
