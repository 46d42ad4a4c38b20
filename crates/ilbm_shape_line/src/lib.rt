// A scan line of a BODY with its shape: every plane row is judged before the first byte is written.
#![tactic(auto)]

ghost use Rattle.std.specs.Prelude.{◌≡◌, ◌*◌, ◌≤◌, length};
ghost use Rattle.iff_tree.specs.Judge.{found};
ghost use Rattle.ilbm_spec.specs.Rows.{row_length, mask_rows, rows_in_line, IsRead, rows_from, colours_from, line_with, line_by, line_answer};
ghost use Rattle.ilbm_spec.specs.Shapes.{shape_by, shape_bits, shaped_line, colours_after, shape_after};
ghost use Rattle.ilbm_spread.specs.Spread.{IsSpread};
ghost use Rattle.ilbm_gather.specs.Buffer.{rows_in};

use iff_refusal::Refusal;
use ilbm_gather::gather;
use ilbm_plane_rows::{judge_rows, row_count, row_length, write_rows};
use ilbm_shape::put_shape;
use ilbm_spread::spread_table;

// Writes the colours and the shape of a line whose plane rows stand in the buffer.
fn put_pixels(
    table: &[u64; 256],
    buffer: &[u8],
    n: usize,
    planes: usize,
    masking: u8,
    transparent: u16,
    row: &mut [u8],
    shape: &mut [u8],
)
    requires spread { IsSpread table.now }
    requires planes_bound { (planes ≤ 8) × (rows_in_line planes masking * n ≤ length buffer.now) × (length row.old ≤ n * 8) }
    requires row_len { length row.old ≡ length shape.old }
    ensures colours { row.new ≡ colours_from 0 (length row.old) (rows_in n planes 0 buffer.now) }
    ensures shape { shape.new ≡ shape_by masking transparent row.new
        (colours_from 0 (length shape.old) (rows_in n (mask_rows masking) planes buffer.now)) }
{
    gather(table, buffer, n, planes, row);
    put_shape(table, buffer, n, planes, masking, transparent, row, shape);
}

// Writes a line that is known to be sound, with its shape, and returns the place after it. Plain rows are gathered from where they lie,
// packed ones from the buffer.
pub fn write_shaped_line(
    table: &[u64; 256],
    body: &[u8],
    at: usize,
    w: usize,
    planes: usize,
    masking: u8,
    transparent: u16,
    compression: u8,
    buffer: &mut [u8],
    row: &mut [u8],
    shape: &mut [u8],
) -> usize
    requires spread { IsSpread table.now }
    requires w_bound { (w ≤ 65535) × (planes ≤ 8) × (rows_in_line planes masking * row_length w ≤ length buffer.old) }
    requires row_len { (length row.old ≡ w) × (length shape.old ≡ w) }
    requires read { IsRead (rows_from compression body.now (row_length w) (rows_in_line planes masking) at) }
    ensures colours { line_by compression w planes (rows_in_line planes masking) body.now at
        ≡ found (row.new, result) }
    ensures shape { line_with (shape_bits w planes masking transparent) compression (row_length w) (rows_in_line planes masking)
        body.now at ≡ found (shape.new, result) }
{
    let n = row_length(w);
    let rows = row_count(planes, masking);
    if compression == 0 {
        if at <= body.len() {
            put_pixels(
                table,
                &body[at..],
                n,
                planes,
                masking,
                transparent,
                row,
                shape,
            );
            return at + rows * n;
        }
    }
    let next = write_rows(body, at, n, rows, compression, buffer);
    put_pixels(table, buffer, n, planes, masking, transparent, row, shape);
    next
}

// A scan line with its shape, by way of a buffer that has room for its plane rows.
fn scan_shaped_row_in(
    body: &[u8],
    at: usize,
    w: usize,
    planes: usize,
    masking: u8,
    transparent: u16,
    compression: u8,
    buffer: &mut [u8],
    row: &mut [u8],
    shape: &mut [u8],
) -> Result<usize, Refusal>
    requires w_bound { (w ≤ 65535) × (planes ≤ 8) × (rows_in_line planes masking * row_length w ≤ length buffer.old) }
    requires row_len { (length row.old ≡ w) × (length shape.old ≡ w) }
    ensures is { result ≡ line_answer (shaped_line compression w planes masking transparent body.now at) }
    ensures colours { row.new
        ≡ colours_after (shaped_line compression w planes masking transparent body.now at) row.old }
    ensures shape { shape.new
        ≡ shape_after (shaped_line compression w planes masking transparent body.now at) shape.old }
{
    let n = row_length(w);
    let rows = row_count(planes, masking);
    let next = judge_rows(body, at, n, rows, compression)?;
    let table = spread_table();
    write_shaped_line(
        &table,
        body,
        at,
        w,
        planes,
        masking,
        transparent,
        compression,
        buffer,
        row,
        shape,
    );
    Ok(next)
}

// A scan line with its shape from a place of the BODY. Most lines have room in a small buffer, which is sooner cleared.
pub fn scan_shaped_row(
    body: &[u8],
    at: usize,
    w: usize,
    planes: usize,
    masking: u8,
    transparent: u16,
    compression: u8,
    row: &mut [u8],
    shape: &mut [u8],
) -> Result<usize, Refusal>
    requires w_bound { (w ≤ 65535) × (planes ≤ 8) }
    requires row_len { (length row.old ≡ w) × (length shape.old ≡ w) }
    ensures is { result ≡ line_answer (shaped_line compression w planes masking transparent body.now at) }
    ensures colours { row.new
        ≡ colours_after (shaped_line compression w planes masking transparent body.now at) row.old }
    ensures shape { shape.new
        ≡ shape_after (shaped_line compression w planes masking transparent body.now at) shape.old }
{
    if w <= 4096 {
        let mut buffer = [0u8; 4608];
        scan_shaped_row_in(
            body,
            at,
            w,
            planes,
            masking,
            transparent,
            compression,
            &mut buffer,
            row,
            shape,
        )
    } else {
        let mut buffer = [0u8; 73728];
        scan_shaped_row_in(
            body,
            at,
            w,
            planes,
            masking,
            transparent,
            compression,
            &mut buffer,
            row,
            shape,
        )
    }
}
