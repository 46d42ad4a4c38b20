// The picture writer: the length is settled before a byte is written.
#![tactic(auto)]

ghost use Rattle.std.specs.Prelude.{◌≡◌, ◌^◌, ◌≤◌, length};
ghost use Rattle.write_form.specs.File.{picture_file};
ghost use Rattle.write_picture.specs.Write.{wrong_fields, colour_over, wrong_shape, write_of, out_after};

use iff_refusal::Reason;
use ilbm_spec::BitmapHeader;
use write_body::shape_width;
use write_form::{file_sizes, put_file};

// 33, for a palette and a frame of so many bytes.
fn wrong_fields(b: BitmapHeader, palette: usize, frame: usize) -> bool
    ensures { result ≡ wrong_fields b palette frame }
{
    if b.w == 0 {
        return true;
    }
    if b.h == 0 {
        return true;
    }
    if b.planes == 0 {
        return true;
    }
    if 8 < b.planes {
        return true;
    }
    if 3 < b.masking {
        return true;
    }
    if 1 < b.compression {
        return true;
    }
    if palette % 3 != 0 {
        return true;
    }
    if 768 < palette {
        return true;
    }
    frame != (b.w as usize) * (b.h as usize)
}

// Whether a colour number is too high.
fn colour_over(most: usize, frame: &[u8]) -> bool
    ensures { result ≡ colour_over most frame.now }
{
    frame.iter().any(|c| most <= usize::from(*c))
}

// 45: a shape of another length than the masking wants, or with a byte over 1.
fn wrong_shape(b: BitmapHeader, shape: &[u8]) -> bool
    ensures { result ≡ wrong_shape b shape.now }
{
    if shape.len() != shape_width(b) * (b.h as usize) {
        return true;
    }
    colour_over(2, shape)
}

// Writes one picture as a FORM ILBM. A refusal leaves out as it was, as do bytes after the file.
pub fn write_picture(
    header: BitmapHeader,
    palette: &[u8],
    frame: &[u8],
    shape: &[u8],
    out: &mut [u8],
) -> Result<usize, Reason>
    ensures is { result
        ≡ write_of header palette.now frame.now shape.now (length out.old) }
    ensures bytes { out.new
        ≡ out_after (write_of header palette.now frame.now shape.now (length out.old))
        (picture_file header palette.now frame.now shape.now) out.old }
{
    if wrong_fields(header, palette.len(), frame.len()) {
        return Err(Reason::WrongFields);
    }
    if colour_over(2usize.pow(u32::from(header.planes)), frame) {
        return Err(Reason::ColourTooGreat);
    }
    if wrong_shape(header, shape) {
        return Err(Reason::WrongShape);
    }
    let sizes = file_sizes(header, palette, frame, shape);
    let size = sizes.file;
    if 16777216 < size {
        return Err(Reason::ResultTooLong);
    }
    if out.len() < size {
        return Err(Reason::NoRoom);
    }
    put_file(header, palette, frame, shape, sizes.body, out);
    Ok(size)
}
