// The scan line and the frame of any bytes as a BODY with their shape, by its header's numbers.
#![tactic(auto)]

ghost use Rattle.std.specs.Prelude.{◌≡◌, ◌≤◌, eqb, length};
ghost use Rattle.iff_name.specs.Name.{both};
ghost use Rattle.ilbm_spec.specs.Rows.{line_answer, frame_answer};
ghost use Rattle.ilbm_spec.specs.Shapes.{body_shape_line, body_shape_frame, shape_line_in_body, shape_frame_in_body, colours_after, shape_after};
ghost use Rattle.ilbm_body_shapes.specs.Refusals.{Refuses};

use iff_refusal::{Reason, Refusal};
use ilbm_body_rows::{judge_fields, left_over};
use ilbm_shape_frame::scan_shaped_frame;
use ilbm_shape_line::scan_shaped_row;

// Whether colours and shape have a byte for each pixel.
fn both_right(colours: usize, shape: usize, pixels: usize) -> bool
    ensures { result ≡ both (eqb colours pixels) (eqb shape pixels) }
{
    (colours == pixels) & (shape == pixels)
}

// 28 for wrong lengths, 44 for masking 3, if any.
fn shape_refusal(right: bool, masking: u8) -> Result<(), Reason>
    ensures { Refuses result right masking }
{
    if !right {
        return Err(Reason::WrongLength);
    }
    if masking == 3 {
        return Err(Reason::NoShape);
    }
    Ok(())
}

// A scan line by fields that pass.
fn sound_shape_line(
    body: &[u8],
    w: u16,
    planes: u8,
    masking: u8,
    compression: u8,
    transparent: u16,
    start: usize,
    row: &mut [u8],
    shape: &mut [u8],
) -> Result<usize, Refusal>
    requires { planes ≤ 8 }
    ensures answer { result ≡ line_answer
        (body_shape_line body.now w planes masking compression transparent start
        (length row.old) (length shape.old)) }
    ensures colours { row.new ≡ colours_after
        (body_shape_line body.now w planes masking compression transparent start
        (length row.old) (length shape.old)) row.old }
    ensures shape { shape.new ≡ shape_after
        (body_shape_line body.now w planes masking compression transparent start
        (length row.old) (length shape.old)) shape.old }
{
    if body.len() < start {
        return Err(Reason::BeyondBody.at(0));
    }
    let width = w as usize;
    let right = both_right(row.len(), shape.len(), width);
    shape_refusal(right, masking)?;
    scan_shaped_row(
        body,
        start,
        width,
        planes as usize,
        masking,
        transparent,
        compression,
        row,
        shape,
    )
}

// The colour numbers of a scan line with their shape, from a place of the BODY, and the next place; a refusal leaves both rows as
// they were.
pub fn shape_line_in_body(
    body: &[u8],
    w: u16,
    planes: u8,
    masking: u8,
    compression: u8,
    transparent: u16,
    start: usize,
    row: &mut [u8],
    shape: &mut [u8],
) -> Result<usize, Refusal>
    ensures answer { result ≡ line_answer
        (shape_line_in_body body.now w planes masking compression transparent start
        (length row.old) (length shape.old)) }
    ensures colours { row.new ≡ colours_after
        (shape_line_in_body body.now w planes masking compression transparent start
        (length row.old) (length shape.old)) row.old }
    ensures shape { shape.new ≡ shape_after
        (shape_line_in_body body.now w planes masking compression transparent start
        (length row.old) (length shape.old)) shape.old }
{
    judge_fields(w, 1, planes, masking, compression)?;
    sound_shape_line(
        body,
        w,
        planes,
        masking,
        compression,
        transparent,
        start,
        row,
        shape,
    )
}

// A frame by fields that pass.
fn sound_shape_frame(
    body: &[u8],
    w: u16,
    h: u16,
    planes: u8,
    masking: u8,
    compression: u8,
    transparent: u16,
    frame: &mut [u8],
    shape: &mut [u8],
) -> Result<usize, Refusal>
    requires { planes ≤ 8 }
    ensures answer { result ≡ frame_answer
        (body_shape_frame body.now w h planes masking compression transparent
        (length frame.old) (length shape.old)) }
    ensures colours { frame.new ≡ colours_after
        (body_shape_frame body.now w h planes masking compression transparent
        (length frame.old) (length shape.old)) frame.old }
    ensures shape { shape.new ≡ shape_after
        (body_shape_frame body.now w h planes masking compression transparent
        (length frame.old) (length shape.old)) shape.old }
{
    let width = w as usize;
    let height = h as usize;
    let pixels = width * height;
    let right = both_right(frame.len(), shape.len(), pixels);
    shape_refusal(right, masking)?;
    let end = scan_shaped_frame(
        body,
        width,
        height,
        planes as usize,
        masking,
        transparent,
        compression,
        frame,
        shape,
    )?;
    Ok(left_over(body.len(), end))
}

// The colour numbers of all scan lines with their shape, and how many bytes of the BODY are left; a refusal leaves both frames as
// they were.
pub fn shape_frame_in_body(
    body: &[u8],
    w: u16,
    h: u16,
    planes: u8,
    masking: u8,
    compression: u8,
    transparent: u16,
    frame: &mut [u8],
    shape: &mut [u8],
) -> Result<usize, Refusal>
    ensures answer { result ≡ frame_answer
        (shape_frame_in_body body.now w h planes masking compression transparent
        (length frame.old) (length shape.old)) }
    ensures colours { frame.new ≡ colours_after
        (shape_frame_in_body body.now w h planes masking compression transparent
        (length frame.old) (length shape.old)) frame.old }
    ensures shape { shape.new ≡ shape_after
        (shape_frame_in_body body.now w h planes masking compression transparent
        (length frame.old) (length shape.old)) shape.old }
{
    judge_fields(w, h, planes, masking, compression)?;
    sound_shape_frame(
        body,
        w,
        h,
        planes,
        masking,
        compression,
        transparent,
        frame,
        shape,
    )
}
