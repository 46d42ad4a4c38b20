// The scan line and the frame of any bytes as a BODY, by its header's numbers.
#![tactic(auto)]

ghost use Rattle.std.specs.Prelude.{◌≡◌, ◌-◌, ◌≤◌, length, OnOk};
ghost use Rattle.ilbm_spec.specs.Pictures.{empty_fields, fields_refusal};
ghost use Rattle.ilbm_spec.specs.Rows.{body_line, body_frame, line_in_body, frame_in_body, line_answer, frame_answer, bytes_after};

use iff_refusal::{Reason, Refusal};
use ilbm_fields::{empty_fields, fields_refusal};
use ilbm_scan_frame::scan_frame;
use ilbm_scan_line::scan_row;

// A scan line by fields that pass.
fn sound_line(
    body: &[u8],
    w: u16,
    planes: u8,
    masking: u8,
    compression: u8,
    start: usize,
    row: &mut [u8],
) -> Result<usize, Refusal>
    requires { planes ≤ 8 }
    ensures answer { result
        ≡ line_answer (body_line body.now w planes masking compression start (length row.old)) }
    ensures bytes { row.new
        ≡ bytes_after (body_line body.now w planes masking compression start (length row.old)) row.old }
{
    if body.len() < start {
        return Err(Reason::BeyondBody.at(0));
    }
    let width = w as usize;
    if row.len() != width {
        return Err(Reason::WrongLength.at(0));
    }
    scan_row(
        body,
        start,
        width,
        planes as usize,
        masking,
        compression,
        row,
    )
}

// 41, 42, 43 or 24 for the fields of a BODY's header, if any.
pub fn judge_fields(w: u16, h: u16, planes: u8, masking: u8, compression: u8) -> Result<(), Reason>
    ensures answer { result ≡ fields_refusal planes masking compression (empty_fields w h planes) }
    ensures few_planes { OnOk result (planes ≤ 8) }
{
    let empty = empty_fields(w, h, planes);
    fields_refusal(planes, masking, compression, empty)
}

// The colour numbers of a scan line, from a place of the BODY, and the next place; a refusal leaves the row as it was.
pub fn line_in_body(
    body: &[u8],
    w: u16,
    planes: u8,
    masking: u8,
    compression: u8,
    start: usize,
    row: &mut [u8],
) -> Result<usize, Refusal>
    ensures answer { result
        ≡ line_answer (line_in_body body.now w planes masking compression start (length row.old)) }
    ensures bytes { row.new
        ≡ bytes_after (line_in_body body.now w planes masking compression start (length row.old)) row.old }
{
    judge_fields(w, 1, planes, masking, compression)?;
    sound_line(body, w, planes, masking, compression, start, row)
}

// The bytes of a BODY that are left after its rows.
pub fn left_over(size: usize, end: usize) -> usize
    ensures { result ≡ size - end }
{
    if end <= size { size - end } else { 0 }
}

// A frame by fields that pass.
fn sound_frame(
    body: &[u8],
    w: u16,
    h: u16,
    planes: u8,
    masking: u8,
    compression: u8,
    frame: &mut [u8],
) -> Result<usize, Refusal>
    requires { planes ≤ 8 }
    ensures answer { result
        ≡ frame_answer (body_frame body.now w h planes masking compression (length frame.old)) }
    ensures bytes { frame.new
        ≡ bytes_after (body_frame body.now w h planes masking compression (length frame.old)) frame.old }
{
    let width = w as usize;
    let height = h as usize;
    if frame.len() != width * height {
        return Err(Reason::WrongLength.at(0));
    }
    let end = scan_frame(
        body,
        width,
        height,
        planes as usize,
        masking,
        compression,
        frame,
    )?;
    Ok(left_over(body.len(), end))
}

// The colour numbers of all scan lines, and how many bytes of the BODY are left; a refusal leaves the frame as it was.
pub fn frame_in_body(
    body: &[u8],
    w: u16,
    h: u16,
    planes: u8,
    masking: u8,
    compression: u8,
    frame: &mut [u8],
) -> Result<usize, Refusal>
    ensures answer { result
        ≡ frame_answer (frame_in_body body.now w h planes masking compression (length frame.old)) }
    ensures bytes { frame.new
        ≡ bytes_after (frame_in_body body.now w h planes masking compression (length frame.old)) frame.old }
{
    judge_fields(w, h, planes, masking, compression)?;
    sound_frame(body, w, h, planes, masking, compression, frame)
}
