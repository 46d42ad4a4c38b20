// The exported calls on scan lines of any bytes as a BODY with their shape: 0 or the number of a refusal, and 0 for what else is told but
// its place.
#![tactic(auto)]

ghost use Rattle.std.specs.Prelude.{◌≡◌, length};
ghost use Rattle.ilbm_spec.specs.Rows.{line_answer, frame_answer};
ghost use Rattle.ilbm_spec.specs.Shapes.{shape_line_in_body, shape_frame_in_body, colours_after, shape_after};
ghost use Rattle.export_numbers.specs.Numbers.{value_numbers};

use export_numbers::tell;
use ilbm_body_shapes::{shape_frame_in_body, shape_line_in_body};

// The colour numbers of a scan line of any bytes as a BODY with their shape, by the fields of its header.
#[unsafe(no_mangle)]
pub extern "C" fn ilbm_body_shape_line(
    body: &[u8],
    w: u16,
    planes: u8,
    masking: u8,
    compression: u8,
    transparent: u16,
    start: usize,
    row: &mut [u8],
    shape: &mut [u8],
    place: &mut usize,
    next: &mut usize,
) -> usize
    ensures answer { record { number = result; place = place.new; value = next.new } ≡ value_numbers (line_answer
        (shape_line_in_body body.now w planes masking compression transparent start
        (length row.old) (length shape.old))) }
    ensures colours { row.new ≡ colours_after
        (shape_line_in_body body.now w planes masking compression transparent start
        (length row.old) (length shape.old)) row.old }
    ensures shape { shape.new ≡ shape_after
        (shape_line_in_body body.now w planes masking compression transparent start
        (length row.old) (length shape.old)) shape.old }
{
    let v = shape_line_in_body(
        body,
        w,
        planes,
        masking,
        compression,
        transparent,
        start,
        row,
        shape,
    );
    tell(v, place, next)
}

// The colour numbers of all scan lines of any bytes as a BODY with their shape, by the fields of its header.
#[unsafe(no_mangle)]
pub extern "C" fn ilbm_body_shape_frame(
    body: &[u8],
    w: u16,
    h: u16,
    planes: u8,
    masking: u8,
    compression: u8,
    transparent: u16,
    frame: &mut [u8],
    shape: &mut [u8],
    place: &mut usize,
    leftover: &mut usize,
) -> usize
    ensures answer { record { number = result; place = place.new; value = leftover.new } ≡ value_numbers (frame_answer
        (shape_frame_in_body body.now w h planes masking compression transparent
        (length frame.old) (length shape.old))) }
    ensures colours { frame.new ≡ colours_after
        (shape_frame_in_body body.now w h planes masking compression transparent
        (length frame.old) (length shape.old)) frame.old }
    ensures shape { shape.new ≡ shape_after
        (shape_frame_in_body body.now w h planes masking compression transparent
        (length frame.old) (length shape.old)) shape.old }
{
    let v = shape_frame_in_body(
        body,
        w,
        h,
        planes,
        masking,
        compression,
        transparent,
        frame,
        shape,
    );
    tell(v, place, leftover)
}
