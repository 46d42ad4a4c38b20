// The exported calls on scan lines of a picture in colours: 0 or the number of a refusal, and 0 for what else is told but its place.
#![tactic(auto)]

ghost use Rattle.std.specs.Prelude.{◌≡◌, length};
ghost use Rattle.ilbm_spec.specs.Rows.{line_answer, frame_answer, bytes_after};
ghost use Rattle.ilbm_spec.specs.Colours.{colour_line_of, colour_frame_of};
ghost use Rattle.export_numbers.specs.Numbers.{value_numbers};

use export_numbers::tell;
use ilbm_colours::{colour_frame, colour_line};

// Red, green and blue of each pixel of a scan line, from a place of the picture's BODY; the row has 3w bytes.
#[unsafe(no_mangle)]
pub extern "C" fn ilbm_colour_line<'a>(
    file: &'a [u8],
    picture: usize,
    start: usize,
    default: &'a [u8],
    row: &mut [u8],
    place: &mut usize,
    next: &mut usize,
) -> usize
    ensures answer { record { number = result; place = place.new; value = next.new } ≡ value_numbers (line_answer
        (colour_line_of file.now picture default.now start (length row.old))) }
    ensures bytes { row.new ≡ bytes_after
        (colour_line_of file.now picture default.now start (length row.old)) row.old }
{
    let v = colour_line(file, picture, default, start, row);
    tell(v, place, next)
}

// Red, green and blue of all pixels, and how many bytes of the BODY are left; the frame has 3wh bytes.
#[unsafe(no_mangle)]
pub extern "C" fn ilbm_colour_frame<'a>(
    file: &'a [u8],
    picture: usize,
    default: &'a [u8],
    frame: &mut [u8],
    place: &mut usize,
    leftover: &mut usize,
) -> usize
    ensures answer { record { number = result; place = place.new; value = leftover.new } ≡ value_numbers (frame_answer
        (colour_frame_of file.now picture default.now (length frame.old))) }
    ensures bytes { frame.new ≡ bytes_after
        (colour_frame_of file.now picture default.now (length frame.old)) frame.old }
{
    let v = colour_frame(file, picture, default, frame);
    tell(v, place, leftover)
}
