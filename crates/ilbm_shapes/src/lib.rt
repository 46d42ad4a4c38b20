// The scan line and the frame of a picture with their shape.
#![tactic(auto)]

ghost use Rattle.std.specs.Prelude.{◌≡◌, length};
ghost use Rattle.ilbm_spec.specs.Rows.{line_answer, frame_answer};
ghost use Rattle.ilbm_spec.specs.Shapes.{shape_line_of, shape_frame_of, colours_after, shape_after};
ghost use Rattle.ilbm_find.specs.Seen.{Judged};
ghost use Rattle.ilbm_shapes.specs.Shapes.{LineDone, FrameDone};

use iff_refusal::{Reason, Refusal};
use ilbm_body_shapes::{shape_frame_in_body, shape_line_in_body};
use ilbm_content::Contents;
use ilbm_find::view_picture;
use ilbm_spec::BitmapHeader;

// A scan line of a picture that is not refused.
fn picture_shape_line(
    s: &[u8],
    c: Contents,
    header: BitmapHeader,
    start: usize,
    row: &mut [u8],
    shape: &mut [u8],
) -> Result<usize, Refusal>
    requires { Judged s.now c header }
    ensures { LineDone s.now c header start row.old shape.old
        result row.new shape.new }
{
    let body = c.body;
    match body {
        None => Err(Reason::NoBody.at(0)),
        Some((a, b)) => shape_line_in_body(
            &s[a..b],
            header.w,
            header.planes,
            header.masking,
            header.compression,
            header.transparent,
            start,
            row,
            shape,
        ),
    }
}

// The colour numbers of a scan line of picture i with their shape, from a place of its BODY, and the next place; a refusal leaves both rows
// as they were.
pub fn shape_line(
    s: &[u8],
    i: usize,
    start: usize,
    row: &mut [u8],
    shape: &mut [u8],
) -> Result<usize, Refusal>
    ensures answer { result
        ≡ line_answer (shape_line_of s.now i start (length row.old) (length shape.old)) }
    ensures colours { row.new ≡ colours_after
        (shape_line_of s.now i start (length row.old) (length shape.old)) row.old }
    ensures shape { shape.new ≡ shape_after
        (shape_line_of s.now i start (length row.old) (length shape.old)) shape.old }
{
    let (c, header) = view_picture(s, i)?;
    picture_shape_line(s, c, header, start, row, shape)
}

// The frame of a picture that is not refused.
fn picture_shape_frame(
    s: &[u8],
    c: Contents,
    header: BitmapHeader,
    frame: &mut [u8],
    shape: &mut [u8],
) -> Result<usize, Refusal>
    requires { Judged s.now c header }
    ensures { FrameDone s.now c header frame.old shape.old
        result frame.new shape.new }
{
    let body = c.body;
    match body {
        None => Err(Reason::NoBody.at(0)),
        Some((from, to)) => shape_frame_in_body(
            &s[from..to],
            header.w,
            header.h,
            header.planes,
            header.masking,
            header.compression,
            header.transparent,
            frame,
            shape,
        ),
    }
}

// The colour numbers of all scan lines of picture i with their shape, and how many bytes of the BODY are left; a refusal leaves both frames
// as they were.
pub fn shape_frame(s: &[u8], i: usize, frame: &mut [u8], shape: &mut [u8]) -> Result<usize, Refusal>
    ensures answer { result
        ≡ frame_answer (shape_frame_of s.now i (length frame.old) (length shape.old)) }
    ensures colours { frame.new ≡ colours_after
        (shape_frame_of s.now i (length frame.old) (length shape.old)) frame.old }
    ensures shape { shape.new ≡ shape_after
        (shape_frame_of s.now i (length frame.old) (length shape.old)) shape.old }
{
    let (c, header) = view_picture(s, i)?;
    picture_shape_frame(s, c, header, frame, shape)
}
