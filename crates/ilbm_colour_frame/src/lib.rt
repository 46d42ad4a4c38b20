// A frame of a BODY in colours: every plane row is judged before the first byte is written.
#![tactic(auto)]

ghost use Rattle.std.specs.Prelude.{◌≡◌, ◌*◌, ◌≤◌, length};
ghost use Rattle.iff_tree.specs.Judge.{found};
ghost use Rattle.ilbm_spread.specs.Spread.{IsSpread};
ghost use Rattle.ilbm_spec.specs.Rows.{row_length, rows_in_line, IsRead, lines_with, line_answer, bytes_after};
ghost use Rattle.ilbm_colour_words.specs.Words.{word_pixels};
ghost use Rattle.ilbm_colour_pixels.specs.Steps.{step_by};

use iff_refusal::Refusal;
use ilbm_colour_line::write_colour_line;
use ilbm_plane_rows::{judge_rows, row_count, row_length};
use ilbm_spread::spread_table;

// Writes scan lines that are known to be sound in colours, one after the other, and returns the place after them.
fn write_colour_lines(
    table: &[u64; 256],
    hold: bool,
    keep: &[u32; 256],
    set: &[u32; 256],
    body: &[u8],
    w: usize,
    h: usize,
    planes: usize,
    rows: usize,
    compression: u8,
    buffer: &mut [u8],
    frame: &mut [u8],
) -> usize
    requires spread { IsSpread table.now }
    requires w_bound { (w ≤ 65535) × (planes ≤ 8) × (planes ≤ rows) }
    requires w_in_bounds { (rows * row_length w ≤ length buffer.old) × (length frame.old ≡ 3 * w * h) }
    requires read { IsRead (lines_with (word_pixels w planes (step_by hold keep.now set.now)) compression (row_length w) rows
        body.now h 0) }
    ensures { lines_with (word_pixels w planes (step_by hold keep.now set.now)) compression (row_length w) rows
        body.now h 0 ≡ found (frame.new, result) }
{
    let long = 3 * w;
    let mut q = 0;
    for y in 0..h {
        let from = y * long;
        let to = from + long;
        q = write_colour_line(
            table,
            hold,
            keep,
            set,
            body,
            q,
            w,
            planes,
            rows,
            compression,
            buffer,
            &mut frame[from..to],
        );
    }
    q
}

// Writes the scan lines of a frame that is known to be sound in colours. The table of spread bytes is made once. Most lines have room in a
// small buffer, which is sooner cleared.
fn write_colour_frame(
    hold: bool,
    keep: &[u32; 256],
    set: &[u32; 256],
    body: &[u8],
    w: usize,
    h: usize,
    planes: usize,
    rows: usize,
    compression: u8,
    frame: &mut [u8],
) -> usize
    requires w_bound { (w ≤ 65535) × (planes ≤ 8) × (planes ≤ rows) × (rows ≤ 9) }
    requires frame_len { length frame.old ≡ 3 * w * h }
    requires read { IsRead (lines_with (word_pixels w planes (step_by hold keep.now set.now)) compression (row_length w) rows
        body.now h 0) }
    ensures { lines_with (word_pixels w planes (step_by hold keep.now set.now)) compression (row_length w) rows
        body.now h 0 ≡ found (frame.new, result) }
{
    let table = spread_table();
    if w <= 4096 {
        let mut buffer = [0u8; 4608];
        write_colour_lines(
            &table,
            hold,
            keep,
            set,
            body,
            w,
            h,
            planes,
            rows,
            compression,
            &mut buffer,
            frame,
        )
    } else {
        let mut buffer = [0u8; 73728];
        write_colour_lines(
            &table,
            hold,
            keep,
            set,
            body,
            w,
            h,
            planes,
            rows,
            compression,
            &mut buffer,
            frame,
        )
    }
}

// The h scan lines of a frame in colours from the BODY's start.
pub fn scan_colour_frame(
    hold: bool,
    keep: &[u32; 256],
    set: &[u32; 256],
    body: &[u8],
    w: usize,
    h: usize,
    planes: usize,
    masking: u8,
    compression: u8,
    frame: &mut [u8],
) -> Result<usize, Refusal>
    requires w_bound { (w ≤ 65535) × (h ≤ 65535) × (planes ≤ 8) }
    requires frame_len { length frame.old ≡ 3 * w * h }
    ensures is { result ≡ line_answer (lines_with (word_pixels w planes (step_by hold keep.now set.now))
        compression (row_length w) (rows_in_line planes masking) body.now h 0) }
    ensures bytes { frame.new ≡ bytes_after
        (lines_with (word_pixels w planes (step_by hold keep.now set.now))
        compression (row_length w) (rows_in_line planes masking) body.now h 0) frame.old }
{
    let n = row_length(w);
    let rows = row_count(planes, masking);
    let end = judge_rows(body, 0, n, h * rows, compression)?;
    write_colour_frame(
        hold,
        keep,
        set,
        body,
        w,
        h,
        planes,
        rows,
        compression,
        frame,
    );
    Ok(end)
}
