// The scan line and the frame of a picture in colours.
#![tactic(auto)]

ghost use Rattle.std.specs.Prelude.{◌≡◌, length};
ghost use Rattle.ilbm_spec.specs.Rows.{line_answer, frame_answer, bytes_after};
ghost use Rattle.ilbm_spec.specs.Colours.{colour_line_of, colour_frame_of};
ghost use Rattle.ilbm_find.specs.Seen.{Judged};
ghost use Rattle.ilbm_colours.specs.Colours.{LineDone, FrameDone};

use iff_refusal::{Reason, Refusal};
use ilbm_body_colours::{colour_frame_in_body, colour_line_in_body};
use ilbm_cmap::part_or_default;
use ilbm_content::Contents;
use ilbm_find::view_picture;
use ilbm_properties::view_mode;
use ilbm_spec::BitmapHeader;

// A scan line of a picture that is not refused.
fn picture_colour_line<'a>(
    s: &'a [u8],
    c: Contents,
    header: BitmapHeader,
    default: &'a [u8],
    start: usize,
    row: &mut [u8],
) -> Result<usize, Refusal>
    requires { Judged s.now c header }
    ensures { LineDone s.now c header default.now start row.old result row.new }
{
    let camg = c.camg;
    let mode = view_mode(s, camg);
    let cmap = c.cmap;
    let part = cmap.part;
    let palette = part_or_default(s, part, default);
    let body = c.body;
    match body {
        None => Err(Reason::NoBody.at(0)),
        Some((from, to)) => colour_line_in_body(
            &s[from..to],
            header.w,
            header.planes,
            header.masking,
            header.compression,
            mode,
            palette,
            start,
            row,
        ),
    }
}

// Red, green and blue of the pixels of a scan line of picture i, from a place of its BODY, and the next place; a refusal leaves the row as
// it was.
pub fn colour_line<'a>(
    s: &'a [u8],
    i: usize,
    default: &'a [u8],
    start: usize,
    row: &mut [u8],
) -> Result<usize, Refusal>
    ensures answer { result
        ≡ line_answer (colour_line_of s.now i default.now start (length row.old)) }
    ensures bytes { row.new ≡ bytes_after
        (colour_line_of s.now i default.now start (length row.old)) row.old }
{
    let (c, header) = view_picture(s, i)?;
    picture_colour_line(s, c, header, default, start, row)
}

// The frame of a picture that is not refused.
fn picture_colour_frame<'a>(
    s: &'a [u8],
    c: Contents,
    header: BitmapHeader,
    default: &'a [u8],
    frame: &mut [u8],
) -> Result<usize, Refusal>
    requires { Judged s.now c header }
    ensures { FrameDone s.now c header default.now frame.old result frame.new }
{
    let camg = c.camg;
    let mode = view_mode(s, camg);
    let cmap = c.cmap;
    let part = cmap.part;
    let palette = part_or_default(s, part, default);
    let body = c.body;
    match body {
        None => Err(Reason::NoBody.at(0)),
        Some((from, to)) => colour_frame_in_body(
            &s[from..to],
            header.w,
            header.h,
            header.planes,
            header.masking,
            header.compression,
            mode,
            palette,
            frame,
        ),
    }
}

// Red, green and blue of all pixels of picture i, and how many bytes of the BODY are left; a refusal leaves the frame as it was.
pub fn colour_frame<'a>(
    s: &'a [u8],
    i: usize,
    default: &'a [u8],
    frame: &mut [u8],
) -> Result<usize, Refusal>
    ensures answer { result ≡ frame_answer (colour_frame_of s.now i default.now (length frame.old)) }
    ensures bytes { frame.new ≡ bytes_after
        (colour_frame_of s.now i default.now (length frame.old)) frame.old }
{
    let (c, header) = view_picture(s, i)?;
    picture_colour_frame(s, c, header, default, frame)
}
