// The scan line and the frame of any bytes as a BODY in colours, by its header's numbers, the number that CAMG holds and the palette.
#![tactic(auto)]

ghost use Rattle.std.specs.Prelude.{◌≡◌, false, ◌≤◌, length};
ghost use Rattle.ilbm_spec.specs.Rows.{line_answer, frame_answer, bytes_after};
ghost use Rattle.ilbm_spec.specs.Colours.{wrong_planes, body_colour_line, body_colour_frame};
ghost use Rattle.ilbm_spec.specs.Colours.{colour_line_in_body, colour_frame_in_body};
ghost use Rattle.ilbm_body_colours.specs.Refusals.{mode_refusal};

use iff_refusal::{Reason, Refusal};
use ilbm_body_rows::{judge_fields, left_over};
use ilbm_colour_rows::{coloured_frame, coloured_row};
use ilbm_palette_colours::holds;

// Bit 11 with another number of planes than 6 and 8.
fn wrong_planes(mode: u32, planes: u8) -> bool
    ensures { result ≡ wrong_planes mode planes }
{
    if planes == 6 {
        return false;
    }
    if planes == 8 {
        return false;
    }
    holds(mode)
}

// 46 for bit 11 with planes that it does not have, if any.
fn judge_mode(mode: u32, planes: u8) -> Result<(), Reason>
    ensures { result ≡ mode_refusal mode planes }
{
    if wrong_planes(mode, planes) {
        return Err(Reason::HoldPlanes);
    }
    Ok(())
}

// A scan line by fields and a mode that pass.
fn sound_colour_line(
    body: &[u8],
    w: u16,
    planes: u8,
    masking: u8,
    compression: u8,
    mode: u32,
    palette: &[u8],
    start: usize,
    row: &mut [u8],
) -> Result<usize, Refusal>
    requires { (planes ≤ 8) × (wrong_planes mode planes ≡ false) }
    ensures answer { result ≡ line_answer
        (body_colour_line body.now w planes masking compression mode palette.now start (length row.old)) }
    ensures bytes { row.new ≡ bytes_after
        (body_colour_line body.now w planes masking compression mode palette.now start (length row.old))
        row.old }
{
    if body.len() < start {
        return Err(Reason::BeyondBody.at(0));
    }
    let width = w as usize;
    if row.len() != 3 * width {
        return Err(Reason::WrongLength.at(0));
    }
    coloured_row(
        body,
        start,
        width,
        planes,
        masking,
        compression,
        mode,
        palette,
        row,
    )
}

// Red, green and blue of a scan line's pixels, from a place of the BODY, and the next place; a refusal leaves the row as it was.
pub fn colour_line_in_body(
    body: &[u8],
    w: u16,
    planes: u8,
    masking: u8,
    compression: u8,
    mode: u32,
    palette: &[u8],
    start: usize,
    row: &mut [u8],
) -> Result<usize, Refusal>
    ensures answer { result ≡ line_answer
        (colour_line_in_body body.now w planes masking compression mode palette.now start
        (length row.old)) }
    ensures bytes { row.new ≡ bytes_after
        (colour_line_in_body body.now w planes masking compression mode palette.now start (length row.old))
        row.old }
{
    judge_fields(w, 1, planes, masking, compression)?;
    judge_mode(mode, planes)?;
    sound_colour_line(
        body,
        w,
        planes,
        masking,
        compression,
        mode,
        palette,
        start,
        row,
    )
}

// A frame by fields and a mode that pass.
fn sound_colour_frame(
    body: &[u8],
    w: u16,
    h: u16,
    planes: u8,
    masking: u8,
    compression: u8,
    mode: u32,
    palette: &[u8],
    frame: &mut [u8],
) -> Result<usize, Refusal>
    requires { (planes ≤ 8) × (wrong_planes mode planes ≡ false) }
    ensures answer { result ≡ frame_answer
        (body_colour_frame body.now w h planes masking compression mode palette.now (length frame.old)) }
    ensures bytes { frame.new ≡ bytes_after
        (body_colour_frame body.now w h planes masking compression mode palette.now (length frame.old))
        frame.old }
{
    let width = w as usize;
    let height = h as usize;
    if frame.len() != 3 * width * height {
        return Err(Reason::WrongLength.at(0));
    }
    let end = coloured_frame(
        body,
        width,
        height,
        planes,
        masking,
        compression,
        mode,
        palette,
        frame,
    )?;
    Ok(left_over(body.len(), end))
}

// Red, green and blue of all pixels, and how many bytes of the BODY are left; a refusal leaves the frame as it was.
pub fn colour_frame_in_body(
    body: &[u8],
    w: u16,
    h: u16,
    planes: u8,
    masking: u8,
    compression: u8,
    mode: u32,
    palette: &[u8],
    frame: &mut [u8],
) -> Result<usize, Refusal>
    ensures answer { result ≡ frame_answer
        (colour_frame_in_body body.now w h planes masking compression mode palette.now (length frame.old)) }
    ensures bytes { frame.new ≡ bytes_after
        (colour_frame_in_body body.now w h planes masking compression mode palette.now (length frame.old))
        frame.old }
{
    judge_fields(w, h, planes, masking, compression)?;
    judge_mode(mode, planes)?;
    sound_colour_frame(
        body,
        w,
        h,
        planes,
        masking,
        compression,
        mode,
        palette,
        frame,
    )
}
