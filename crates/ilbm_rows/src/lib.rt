// The scan line and the frame of a picture.
#![tactic(auto)]

ghost use Rattle.std.specs.Prelude.{◌≡◌, length};
ghost use Rattle.ilbm_spec.specs.Rows.{line_of, frame_of, line_answer, frame_answer, bytes_after};
ghost use Rattle.ilbm_find.specs.Seen.{Judged};
ghost use Rattle.ilbm_rows.specs.Lines.{LineDone, FrameDone};

use iff_refusal::{Reason, Refusal};
use ilbm_body_rows::{frame_in_body, line_in_body};
use ilbm_content::Contents;
use ilbm_find::view_picture;
use ilbm_spec::BitmapHeader;

// A scan line of a picture that is not refused.
fn picture_line(
    s: &[u8],
    c: Contents,
    header: BitmapHeader,
    start: usize,
    row: &mut [u8],
) -> Result<usize, Refusal>
    requires { Judged s.now c header }
    ensures { LineDone s.now c header start row.old result row.new }
{
    let body = c.body;
    match body {
        None => Err(Reason::NoBody.at(0)),
        Some((a, b)) => line_in_body(
            &s[a..b],
            header.w,
            header.planes,
            header.masking,
            header.compression,
            start,
            row,
        ),
    }
}

// The colour numbers of a scan line of picture i, from a place of its BODY, and the next place; a refusal leaves the row as it was.
pub fn scan_line(s: &[u8], i: usize, start: usize, row: &mut [u8]) -> Result<usize, Refusal>
    ensures answer { result ≡ line_answer (line_of s.now i start (length row.old)) }
    ensures bytes { row.new ≡ bytes_after (line_of s.now i start (length row.old)) row.old }
{
    let (c, header) = view_picture(s, i)?;
    picture_line(s, c, header, start, row)
}

// The frame of a picture that is not refused.
fn picture_frame(
    s: &[u8],
    c: Contents,
    header: BitmapHeader,
    frame: &mut [u8],
) -> Result<usize, Refusal>
    requires { Judged s.now c header }
    ensures { FrameDone s.now c header frame.old result frame.new }
{
    let body = c.body;
    match body {
        None => Err(Reason::NoBody.at(0)),
        Some((from, to)) => frame_in_body(
            &s[from..to],
            header.w,
            header.h,
            header.planes,
            header.masking,
            header.compression,
            frame,
        ),
    }
}

// The colour numbers of all scan lines of picture i, and how many bytes of the BODY are left; a refusal leaves the frame as it was.
pub fn whole_frame(s: &[u8], i: usize, frame: &mut [u8]) -> Result<usize, Refusal>
    ensures answer { result ≡ frame_answer (frame_of s.now i (length frame.old)) }
    ensures bytes { frame.new ≡ bytes_after (frame_of s.now i (length frame.old)) frame.old }
{
    let (c, header) = view_picture(s, i)?;
    picture_frame(s, c, header, frame)
}
