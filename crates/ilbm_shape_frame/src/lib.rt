// A frame of a BODY with its shape: every plane row is judged before the first byte is written.
#![tactic(auto)]

ghost use Rattle.std.specs.Prelude.{◌≡◌, ◌*◌, ◌≤◌, length};
ghost use Rattle.iff_tree.specs.Judge.{found};
ghost use Rattle.ilbm_spec.specs.Rows.{row_length, rows_in_line, IsRead, colour_numbers, lines_with, line_answer};
ghost use Rattle.ilbm_spec.specs.Shapes.{shape_bits, shaped_lines, colours_after, shape_after};
ghost use Rattle.ilbm_spread.specs.Spread.{IsSpread};

use iff_refusal::Refusal;
use ilbm_plane_rows::{judge_rows, row_count, row_length};
use ilbm_shape_line::write_shaped_line;
use ilbm_spread::spread_table;

// Writes scan lines that are known to be sound with their shapes, one after the other, and returns the place after them.
fn write_shaped_lines(
    table: &[u64; 256],
    body: &[u8],
    w: usize,
    h: usize,
    planes: usize,
    masking: u8,
    transparent: u16,
    compression: u8,
    buffer: &mut [u8],
    frame: &mut [u8],
    shape: &mut [u8],
) -> usize
    requires spread { IsSpread table.now }
    requires w_bound { (w ≤ 65535) × (planes ≤ 8) × (rows_in_line planes masking * row_length w ≤ length buffer.old) }
    requires frame_len { (length frame.old ≡ w * h) × (length shape.old ≡ w * h) }
    requires read { IsRead (lines_with (colour_numbers w planes) compression (row_length w) (rows_in_line planes masking) body.now h 0)
        × IsRead (lines_with (shape_bits w planes masking transparent) compression (row_length w) (rows_in_line planes masking)
        body.now h 0) }
    ensures colours { lines_with (colour_numbers w planes) compression (row_length w) (rows_in_line planes masking)
        body.now h 0 ≡ found (frame.new, result) }
    ensures shape { lines_with (shape_bits w planes masking transparent) compression (row_length w) (rows_in_line planes masking)
        body.now h 0 ≡ found (shape.new, result) }
{
    let mut q = 0;
    for y in 0..h {
        let from = y * w;
        let to = from + w;
        q = write_shaped_line(
            table,
            body,
            q,
            w,
            planes,
            masking,
            transparent,
            compression,
            buffer,
            &mut frame[from..to],
            &mut shape[from..to],
        );
    }
    q
}

// Writes the scan lines and the shape of a frame that is known to be sound. The table of spread bytes is made once. Most lines have room
// in a small buffer, which is sooner cleared.
fn write_shaped_frame(
    body: &[u8],
    w: usize,
    h: usize,
    planes: usize,
    masking: u8,
    transparent: u16,
    compression: u8,
    frame: &mut [u8],
    shape: &mut [u8],
) -> usize
    requires w_bound { (w ≤ 65535) × (planes ≤ 8) }
    requires frame_len { (length frame.old ≡ w * h) × (length shape.old ≡ w * h) }
    requires read { IsRead (lines_with (colour_numbers w planes) compression (row_length w) (rows_in_line planes masking) body.now h 0)
        × IsRead (lines_with (shape_bits w planes masking transparent) compression (row_length w) (rows_in_line planes masking)
        body.now h 0) }
    ensures colours { lines_with (colour_numbers w planes) compression (row_length w) (rows_in_line planes masking)
        body.now h 0 ≡ found (frame.new, result) }
    ensures shape { lines_with (shape_bits w planes masking transparent) compression (row_length w) (rows_in_line planes masking)
        body.now h 0 ≡ found (shape.new, result) }
{
    let table = spread_table();
    if w <= 4096 {
        let mut buffer = [0u8; 4608];
        write_shaped_lines(
            &table,
            body,
            w,
            h,
            planes,
            masking,
            transparent,
            compression,
            &mut buffer,
            frame,
            shape,
        )
    } else {
        let mut buffer = [0u8; 73728];
        write_shaped_lines(
            &table,
            body,
            w,
            h,
            planes,
            masking,
            transparent,
            compression,
            &mut buffer,
            frame,
            shape,
        )
    }
}

// The h scan lines of a frame with their shape from the BODY's start.
pub fn scan_shaped_frame(
    body: &[u8],
    w: usize,
    h: usize,
    planes: usize,
    masking: u8,
    transparent: u16,
    compression: u8,
    frame: &mut [u8],
    shape: &mut [u8],
) -> Result<usize, Refusal>
    requires w_bound { (w ≤ 65535) × (h ≤ 65535) × (planes ≤ 8) }
    requires frame_len { (length frame.old ≡ w * h) × (length shape.old ≡ w * h) }
    ensures is { result ≡ line_answer (shaped_lines compression w planes masking transparent body.now h 0) }
    ensures colours { frame.new
        ≡ colours_after (shaped_lines compression w planes masking transparent body.now h 0) frame.old }
    ensures shape { shape.new
        ≡ shape_after (shaped_lines compression w planes masking transparent body.now h 0) shape.old }
{
    let n = row_length(w);
    let rows = row_count(planes, masking);
    let end = judge_rows(body, 0, n, h * rows, compression)?;
    write_shaped_frame(
        body,
        w,
        h,
        planes,
        masking,
        transparent,
        compression,
        frame,
        shape,
    );
    Ok(end)
}
