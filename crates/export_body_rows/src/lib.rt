// The exported calls on scan lines of any bytes as a BODY: 0 or the number of a refusal, and 0 for what else is told but its place.
#![tactic(auto)]

ghost use Rattle.std.specs.Prelude.{◌≡◌, length};
ghost use Rattle.ilbm_spec.specs.Rows.{line_in_body, frame_in_body, line_answer, frame_answer, bytes_after};
ghost use Rattle.export_numbers.specs.Numbers.{value_numbers};

use export_numbers::tell;
use ilbm_body_rows::{frame_in_body, line_in_body};

// The colour numbers of a scan line of any bytes as a BODY, by the fields of its header.
#[unsafe(no_mangle)]
pub extern "C" fn ilbm_body_line(
    body: &[u8],
    w: u16,
    planes: u8,
    masking: u8,
    compression: u8,
    start: usize,
    row: &mut [u8],
    place: &mut usize,
    next: &mut usize,
) -> usize
    ensures answer { record { number = result; place = place.new; value = next.new }
        ≡ value_numbers (line_answer (line_in_body body.now w planes masking compression start (length row.old))) }
    ensures bytes { row.new
        ≡ bytes_after (line_in_body body.now w planes masking compression start (length row.old)) row.old }
{
    let v = line_in_body(body, w, planes, masking, compression, start, row);
    tell(v, place, next)
}

// The colour numbers of all scan lines of any bytes as a BODY, by the fields of its header.
#[unsafe(no_mangle)]
pub extern "C" fn ilbm_body_frame(
    body: &[u8],
    w: u16,
    h: u16,
    planes: u8,
    masking: u8,
    compression: u8,
    frame: &mut [u8],
    place: &mut usize,
    leftover: &mut usize,
) -> usize
    ensures answer { record { number = result; place = place.new; value = leftover.new }
        ≡ value_numbers (frame_answer (frame_in_body body.now w h planes masking compression (length frame.old))) }
    ensures bytes { frame.new
        ≡ bytes_after (frame_in_body body.now w h planes masking compression (length frame.old)) frame.old }
{
    let v = frame_in_body(body, w, h, planes, masking, compression, frame);
    tell(v, place, leftover)
}
