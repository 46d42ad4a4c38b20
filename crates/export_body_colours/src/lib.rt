// The exported calls on scan lines of any bytes as a BODY in colours: 0 or the number of a refusal, and 0 for what else is told but its
// place.
#![tactic(auto)]

ghost use Rattle.std.specs.Prelude.{◌≡◌, length};
ghost use Rattle.ilbm_spec.specs.Rows.{line_answer, frame_answer, bytes_after};
ghost use Rattle.ilbm_spec.specs.Colours.{colour_line_in_body, colour_frame_in_body};
ghost use Rattle.export_numbers.specs.Numbers.{value_numbers};

use export_numbers::tell;
use ilbm_body_colours::{colour_frame_in_body, colour_line_in_body};

// Red, green and blue of each pixel of a scan line of any bytes as a BODY, by the fields of its header, the number that CAMG holds and
// the palette.
#[unsafe(no_mangle)]
pub extern "C" fn ilbm_body_colour_line(
    body: &[u8],
    w: u16,
    planes: u8,
    masking: u8,
    compression: u8,
    mode: u32,
    palette: &[u8],
    start: usize,
    row: &mut [u8],
    place: &mut usize,
    next: &mut usize,
) -> usize
    ensures answer { record { number = result; place = place.new; value = next.new } ≡ value_numbers (line_answer
        (colour_line_in_body body.now w planes masking compression mode palette.now start
        (length row.old))) }
    ensures bytes { row.new ≡ bytes_after
        (colour_line_in_body body.now w planes masking compression mode palette.now start
        (length row.old)) row.old }
{
    let v = colour_line_in_body(
        body,
        w,
        planes,
        masking,
        compression,
        mode,
        palette,
        start,
        row,
    );
    tell(v, place, next)
}

// Red, green and blue of all pixels of any bytes as a BODY, by the fields of its header, the number that CAMG holds and the palette.
#[unsafe(no_mangle)]
pub extern "C" fn ilbm_body_colour_frame(
    body: &[u8],
    w: u16,
    h: u16,
    planes: u8,
    masking: u8,
    compression: u8,
    mode: u32,
    palette: &[u8],
    frame: &mut [u8],
    place: &mut usize,
    leftover: &mut usize,
) -> usize
    ensures answer { record { number = result; place = place.new; value = leftover.new } ≡ value_numbers (frame_answer
        (colour_frame_in_body body.now w h planes masking compression mode palette.now
        (length frame.old))) }
    ensures bytes { frame.new ≡ bytes_after
        (colour_frame_in_body body.now w h planes masking compression mode palette.now
        (length frame.old)) frame.old }
{
    let v = colour_frame_in_body(
        body,
        w,
        h,
        planes,
        masking,
        compression,
        mode,
        palette,
        frame,
    );
    tell(v, place, leftover)
}
