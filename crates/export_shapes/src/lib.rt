// The exported calls on scan lines of a picture with their shape: 0 or the number of a refusal, and 0 for what else is told but its place.
#![tactic(auto)]

ghost use Rattle.std.specs.Prelude.{◌≡◌, length};
ghost use Rattle.ilbm_spec.specs.Rows.{line_answer, frame_answer};
ghost use Rattle.ilbm_spec.specs.Shapes.{shape_line_of, shape_frame_of, colours_after, shape_after};
ghost use Rattle.export_numbers.specs.Numbers.{value_numbers};

use export_numbers::tell;
use ilbm_shapes::{shape_frame, shape_line};

// The colour numbers of a scan line, from a place of the picture's BODY, and 1 or 0 for each pixel that shows or not; both rows have w
// bytes.
#[unsafe(no_mangle)]
pub extern "C" fn ilbm_shape_line(
    file: &[u8],
    picture: usize,
    start: usize,
    row: &mut [u8],
    shape: &mut [u8],
    place: &mut usize,
    next: &mut usize,
) -> usize
    ensures answer { record { number = result; place = place.new; value = next.new } ≡ value_numbers (line_answer
        (shape_line_of file.now picture start (length row.old) (length shape.old))) }
    ensures colours { row.new ≡ colours_after
        (shape_line_of file.now picture start (length row.old) (length shape.old)) row.old }
    ensures shape { shape.new ≡ shape_after
        (shape_line_of file.now picture start (length row.old) (length shape.old)) shape.old }
{
    let v = shape_line(file, picture, start, row, shape);
    tell(v, place, next)
}

// The colour numbers of all scan lines with their shape, and how many bytes of the BODY are left; both frames have w times h bytes.
#[unsafe(no_mangle)]
pub extern "C" fn ilbm_shape_frame(
    file: &[u8],
    picture: usize,
    frame: &mut [u8],
    shape: &mut [u8],
    place: &mut usize,
    leftover: &mut usize,
) -> usize
    ensures answer { record { number = result; place = place.new; value = leftover.new } ≡ value_numbers (frame_answer
        (shape_frame_of file.now picture (length frame.old) (length shape.old))) }
    ensures colours { frame.new ≡ colours_after
        (shape_frame_of file.now picture (length frame.old) (length shape.old)) frame.old }
    ensures shape { shape.new ≡ shape_after
        (shape_frame_of file.now picture (length frame.old) (length shape.old)) shape.old }
{
    let v = shape_frame(file, picture, frame, shape);
    tell(v, place, leftover)
}
