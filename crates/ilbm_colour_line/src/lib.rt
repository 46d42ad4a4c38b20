// A scan line of a BODY in colours: every plane row is judged before the first byte is written.
#![tactic(auto)]

ghost use Rattle.std.specs.Prelude.{◌≡◌, ◌*◌, ◌≤◌, length};
ghost use Rattle.iff_tree.specs.Judge.{found};
ghost use Rattle.ilbm_spread.specs.Spread.{IsSpread};
ghost use Rattle.ilbm_spec.specs.Rows.{row_length, rows_in_line, IsRead, rows_from, line_with, line_answer, bytes_after};
ghost use Rattle.ilbm_colour_words.specs.Words.{word_pixels};
ghost use Rattle.ilbm_colour_pixels.specs.Steps.{step_by};

use iff_refusal::Refusal;
use ilbm_colour_pixels::put_colours;
use ilbm_plane_rows::{judge_rows, row_count, row_length, write_line_by};
use ilbm_spread::spread_table;

// Writes a line that is known to be sound, and returns the place after it: its colour numbers into the last third of the row, and then
// the colours over them.
pub fn write_colour_line(
    table: &[u64; 256],
    hold: bool,
    keep: &[u32; 256],
    set: &[u32; 256],
    body: &[u8],
    at: usize,
    w: usize,
    planes: usize,
    rows: usize,
    compression: u8,
    buffer: &mut [u8],
    row: &mut [u8],
) -> usize
    requires spread { IsSpread table.now }
    requires w_bound { (w ≤ 65535) × (planes ≤ 8) × (planes ≤ rows) }
    requires w_in_bounds { (rows * row_length w ≤ length buffer.old) × (length row.old ≡ 3 * w) }
    requires read { IsRead (rows_from compression body.now (row_length w) rows at) }
    ensures { line_with (word_pixels w planes (step_by hold keep.now set.now)) compression (row_length w) rows
        body.now at ≡ found (row.new, result) }
{
    let from = 2 * w;
    let next = write_line_by(
        table,
        body,
        at,
        w,
        planes,
        rows,
        compression,
        buffer,
        &mut row[from..],
    );
    put_colours(hold, keep, set, w, row);
    next
}

// A scan line in colours, by way of a buffer that has room for its plane rows.
fn scan_colour_row_in(
    hold: bool,
    keep: &[u32; 256],
    set: &[u32; 256],
    body: &[u8],
    at: usize,
    w: usize,
    planes: usize,
    masking: u8,
    compression: u8,
    buffer: &mut [u8],
    row: &mut [u8],
) -> Result<usize, Refusal>
    requires w_bound { (w ≤ 65535) × (planes ≤ 8) }
    requires w_in_bounds { (rows_in_line planes masking * row_length w ≤ length buffer.old) × (length row.old ≡ 3 * w) }
    ensures is { result ≡ line_answer (line_with (word_pixels w planes (step_by hold keep.now set.now))
        compression (row_length w) (rows_in_line planes masking) body.now at) }
    ensures bytes { row.new ≡ bytes_after
        (line_with (word_pixels w planes (step_by hold keep.now set.now))
        compression (row_length w) (rows_in_line planes masking) body.now at) row.old }
{
    let n = row_length(w);
    let rows = row_count(planes, masking);
    let next = judge_rows(body, at, n, rows, compression)?;
    let table = spread_table();
    write_colour_line(
        &table,
        hold,
        keep,
        set,
        body,
        at,
        w,
        planes,
        rows,
        compression,
        buffer,
        row,
    );
    Ok(next)
}

// A scan line in colours from a place of the BODY. Most lines have room in a small buffer, which is sooner cleared.
pub fn scan_colour_row(
    hold: bool,
    keep: &[u32; 256],
    set: &[u32; 256],
    body: &[u8],
    at: usize,
    w: usize,
    planes: usize,
    masking: u8,
    compression: u8,
    row: &mut [u8],
) -> Result<usize, Refusal>
    requires w_bound { (w ≤ 65535) × (planes ≤ 8) }
    requires row_len { length row.old ≡ 3 * w }
    ensures is { result ≡ line_answer (line_with (word_pixels w planes (step_by hold keep.now set.now))
        compression (row_length w) (rows_in_line planes masking) body.now at) }
    ensures bytes { row.new ≡ bytes_after
        (line_with (word_pixels w planes (step_by hold keep.now set.now))
        compression (row_length w) (rows_in_line planes masking) body.now at) row.old }
{
    if w <= 4096 {
        let mut buffer = [0u8; 4608];
        scan_colour_row_in(
            hold,
            keep,
            set,
            body,
            at,
            w,
            planes,
            masking,
            compression,
            &mut buffer,
            row,
        )
    } else {
        let mut buffer = [0u8; 73728];
        scan_colour_row_in(
            hold,
            keep,
            set,
            body,
            at,
            w,
            planes,
            masking,
            compression,
            &mut buffer,
            row,
        )
    }
}
