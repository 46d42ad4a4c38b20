// The exported calls on scan lines of a picture: 0 or the number of a refusal, and 0 for what else is told but its place.
#![tactic(auto)]

ghost use Rattle.std.specs.Prelude.{◌≡◌, length};
ghost use Rattle.ilbm_spec.specs.Rows.{line_of, frame_of, line_answer, frame_answer, bytes_after};
ghost use Rattle.export_numbers.specs.Numbers.{value_numbers};

use export_numbers::tell;
use ilbm_rows::{scan_line, whole_frame};

// The colour numbers of a scan line, from a place of the picture's BODY; the row has w bytes.
#[unsafe(no_mangle)]
pub extern "C" fn ilbm_line(
    file: &[u8],
    number: usize,
    start: usize,
    row: &mut [u8],
    place: &mut usize,
    next: &mut usize,
) -> usize
    ensures answer { record { number = result; place = place.new; value = next.new }
        ≡ value_numbers (line_answer (line_of file.now number start (length row.old))) }
    ensures bytes { row.new
        ≡ bytes_after (line_of file.now number start (length row.old)) row.old }
{
    let v = scan_line(file, number, start, row);
    tell(v, place, next)
}

// The colour numbers of all scan lines, and how many bytes of the BODY are left; the frame has w times h bytes.
#[unsafe(no_mangle)]
pub extern "C" fn ilbm_frame(
    file: &[u8],
    number: usize,
    frame: &mut [u8],
    place: &mut usize,
    leftover: &mut usize,
) -> usize
    ensures answer { record { number = result; place = place.new; value = leftover.new }
        ≡ value_numbers (frame_answer (frame_of file.now number (length frame.old))) }
    ensures bytes { frame.new
        ≡ bytes_after (frame_of file.now number (length frame.old)) frame.old }
{
    let v = whole_frame(file, number, frame);
    tell(v, place, leftover)
}
