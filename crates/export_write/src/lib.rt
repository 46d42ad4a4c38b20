// The exported packer and picture writer: 0 and the length of what was written, or the number of a refusal and 0.
#![tactic(auto)]

ghost use Rattle.std.specs.Prelude.{◌≡◌, length};
ghost use Rattle.byterun_pack.specs.Pack.{pack_of, out_after as packedInto};
ghost use Rattle.write_form.specs.File.{picture_file};
ghost use Rattle.write_picture.specs.Write.{write_of, out_after};
ghost use Rattle.export_write.specs.Writing.{header_of, size_numbers};

use iff_refusal::Reason;
use ilbm_spec::BitmapHeader;

// The answer as numbers: 0 and the length of what was written, or the number of a refusal and 0.
fn tell(v: Result<usize, Reason>, size: &mut usize) -> usize
    ensures { record { number = result; value = size.new } ≡ size_numbers v }
{
    match v {
        Ok(n) => {
            *size = n;
            0
        }
        Err(reason) => {
            *size = 0;
            reason.number()
        }
    }
}

// Packs a row of 1 to 8,192 bytes into `out`: 31 for a row of another length, 32 if `out` is too short.
#[unsafe(no_mangle)]
pub extern "C" fn byterun_pack(row: &[u8], out: &mut [u8], size: &mut usize) -> usize
    ensures answer { record { number = result; value = size.new } ≡ size_numbers (pack_of row.now (length out.old)) }
    ensures packed { out.new ≡ packedInto (pack_of row.now (length out.old)) row.now out.old }
{
    tell(byterun_pack::pack_row(row, out), size)
}

// One picture as a file, into `out`: 33, 34, 45, 35, then 32 if `out` is too short. The frame has w times h colour numbers; the shape has
// as many bytes for masking 1, each 1 or 0, and none otherwise.
#[unsafe(no_mangle)]
pub extern "C" fn ilbm_write(
    w: u16,
    h: u16,
    x: i16,
    y: i16,
    planes: u8,
    masking: u8,
    compression: u8,
    transparent: u16,
    x_aspect: u8,
    y_aspect: u8,
    page_width: i16,
    page_height: i16,
    palette: &[u8],
    frame: &[u8],
    shape: &[u8],
    out: &mut [u8],
    size: &mut usize,
) -> usize
    ensures answer { record { number = result; value = size.new }
        ≡ size_numbers (write_of (header_of w h x y planes masking compression transparent x_aspect y_aspect page_width page_height)
        palette.now frame.now shape.now (length out.old)) }
    ensures bytes { out.new
        ≡ out_after (write_of (header_of w h x y planes masking compression transparent x_aspect y_aspect page_width page_height)
        palette.now frame.now shape.now (length out.old))
        (picture_file (header_of w h x y planes masking compression transparent x_aspect y_aspect page_width page_height)
        palette.now frame.now shape.now) out.old }
{
    let header = BitmapHeader {
        w,
        h,
        x,
        y,
        planes,
        masking,
        compression,
        pad1: 0,
        transparent,
        x_aspect,
        y_aspect,
        page_width,
        page_height,
    };
    tell(
        write_picture::write_picture(header, palette, frame, shape, out),
        size,
    )
}
