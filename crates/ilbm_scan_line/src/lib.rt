// A scan line of a BODY: every plane row is judged before the first byte is written.
#![tactic(auto)]

ghost use Rattle.std.specs.Prelude.{◌≡◌, ◌+◌, ◌*◌, ◌≤◌, length};
ghost use Rattle.ilbm_spec.specs.Rows.{row_length, rows_in_line, line_by, line_answer, bytes_after};

use iff_refusal::Refusal;
use ilbm_plane_rows::{judge_rows, row_count, row_length, write_line};

// A scan line, by way of a buffer that has room for its plane rows.
fn scan_row_in(
    body: &[u8],
    at: usize,
    w: usize,
    planes: usize,
    masking: u8,
    compression: u8,
    buffer: &mut [u8],
    row: &mut [u8],
) -> Result<usize, Refusal>
    requires w_bound { (w ≤ 65535) × (planes ≤ 8) }
    requires w_in_bounds { (rows_in_line planes masking * row_length w ≤ length buffer.old) × (length row.old ≡ w) }
    ensures is { result ≡ line_answer (line_by compression w planes (rows_in_line planes masking) body.now at) }
    ensures bytes { row.new ≡ bytes_after (line_by compression w planes (rows_in_line planes masking) body.now at) row.old }
{
    let n = row_length(w);
    let rows = row_count(planes, masking);
    let next = judge_rows(body, at, n, rows, compression)?;
    write_line(body, at, w, planes, rows, compression, buffer, row);
    Ok(next)
}

// A scan line from a place of the BODY. Most lines have room in a small buffer, which is sooner cleared.
pub fn scan_row(
    body: &[u8],
    at: usize,
    w: usize,
    planes: usize,
    masking: u8,
    compression: u8,
    row: &mut [u8],
) -> Result<usize, Refusal>
    requires w_bound { (w ≤ 65535) × (planes ≤ 8) }
    requires row_len { length row.old ≡ w }
    ensures is { result ≡ line_answer (line_by compression w planes (rows_in_line planes masking) body.now at) }
    ensures bytes { row.new ≡ bytes_after (line_by compression w planes (rows_in_line planes masking) body.now at) row.old }
{
    if w <= 4096 {
        let mut buffer = [0u8; 4608];
        scan_row_in(body, at, w, planes, masking, compression, &mut buffer, row)
    } else {
        let mut buffer = [0u8; 73728];
        scan_row_in(body, at, w, planes, masking, compression, &mut buffer, row)
    }
}
