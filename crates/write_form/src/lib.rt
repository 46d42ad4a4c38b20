// The bytes of one picture as a FORM ILBM, put into a buffer part by part.
#![tactic(auto)]

ghost use Rattle.std.specs.Prelude.{◌≡◌, ◌+◌, ◌*◌, ◌/◌, ◌%◌, ◌≤◌, ◌<◌, [], length, replicate};
ghost use Rattle.iff_chunk.specs.Chunks.{put_word};
ghost use Rattle.write_body.specs.Body.{shape_width, body_bytes};
ghost use Rattle.write_plane_row.specs.Put.{put, Room};
ghost use Rattle.write_form.specs.File.{unsigned, header_bytes, picture_file};
ghost use Rattle.write_form.specs.Parts.{chunk_head, palette_chunk, type_and_header, palette_size};

use iff_name::Name;
use ilbm_spec::BitmapHeader;
use write_body::{body_len, put_body};

const FORM: usize = Name::FORM.code as usize;

const ILBM: usize = ilbm_names::ILBM.code as usize;

const BMHD: usize = ilbm_names::BMHD.code as usize;

const CMAP: usize = ilbm_names::CMAP.code as usize;

const BODY: usize = ilbm_names::BODY.code as usize;

// The bytes of BMHD.
fn header_bytes(b: BitmapHeader) -> [u8; 20]
    ensures { result ≡ header_bytes b }
{
    let [w0, w1] = b.w.to_be_bytes();
    let [h0, h1] = b.h.to_be_bytes();
    let [x0, x1] = b.x.to_be_bytes();
    let [y0, y1] = b.y.to_be_bytes();
    let [transparent0, transparent1] = b.transparent.to_be_bytes();
    let [page_width0, page_width1] = b.page_width.to_be_bytes();
    let [page_height0, page_height1] = b.page_height.to_be_bytes();
    [
        w0,
        w1,
        h0,
        h1,
        x0,
        x1,
        y0,
        y1,
        b.planes,
        b.masking,
        b.compression,
        0,
        transparent0,
        transparent1,
        b.x_aspect,
        b.y_aspect,
        page_width0,
        page_width1,
        page_height0,
        page_height1,
    ]
}

// Writes a number of 32 bits.
fn put_word(v: usize, out: &mut [u8], at: usize)
    requires { (v < 4294967296) × (at + 4 ≤ length out.old) }
    ensures { out.new ≡ put out.old at (put_word v []) }
{
    out[at..at + 4].copy_from_slice(&(v as u32).to_be_bytes());
}

// Writes the header of a chunk.
fn put_head(name: usize, size: usize, out: &mut [u8], at: usize)
    requires { (name < 4294967296) × (size < 4294967296) × (at + 8 ≤ length out.old) }
    ensures { out.new ≡ put out.old at (chunk_head name size) }
{
    put_word(name, out, at);
    put_word(size, out, at + 4);
}

// Writes the type of the FORM, the header of BMHD and BMHD's data.
fn put_header(b: BitmapHeader, out: &mut [u8])
    requires { 40 ≤ length out.old }
    ensures { out.new ≡ put out.old 8 (type_and_header b) }
{
    put_word(ILBM, out, 8);
    put_head(BMHD, 20, out, 12);
    let head = header_bytes(b);
    byterun_copy::copy_run(&head, 0, out, 20, 20);
}

// Writes the pad of a chunk of so many bytes.
fn put_pad(n: usize, out: &mut [u8], at: usize)
    requires { at + n % 2 ≤ length out.old }
    ensures { out.new ≡ put out.old at (replicate (n % 2) 0) }
{
    if n % 2 == 1 {
        out[at] = 0;
    }
}

// The length of CMAP for a palette of so many bytes.
fn palette_size(n: usize) -> usize
    requires { n ≤ 768 }
    ensures { result ≡ palette_size n }
{
    if n == 0 {
        return 0;
    }
    8 + n + n % 2
}

// Writes CMAP, if the palette is not empty.
fn put_palette(palette: &[u8], out: &mut [u8])
    requires { (length palette.now ≤ 768) × (40 + palette_size (length palette.now) ≤ length out.old) }
    ensures { out.new ≡ put out.old 40 (palette_chunk palette.now) }
{
    let n = palette.len();
    if n != 0 {
        put_head(CMAP, n, out, 40);
        byterun_copy::copy_run(palette, 0, out, 48, n);
        put_pad(n, out, 48 + n);
    }
}

// The lengths of BODY's data and of the whole file.
#[derive(Clone, Copy)]
pub struct FileSizes {
    pub body: usize,
    pub file: usize,
}

// The lengths of the file that is to be written, before a byte of it is.
pub fn file_sizes(b: BitmapHeader, palette: &[u8], frame: &[u8], shape: &[u8]) -> FileSizes
    requires { (b.planes ≤ 8) × (length palette.now ≤ 768) × (length frame.now ≡ b.h * b.w)
        × (length shape.now ≡ b.h * shape_width b) }
    ensures body { result.body ≡ length (body_bytes b frame.now shape.now) }
    ensures file { result.file ≡ length (picture_file b palette.now frame.now shape.now) }
{
    let body = body_len(b, frame, shape);
    let file = 48 + palette_size(palette.len()) + body + body % 2;
    FileSizes { body, file }
}

// Writes the file, whose BODY has so many bytes, to the start of out.
pub fn put_file(
    b: BitmapHeader,
    palette: &[u8],
    frame: &[u8],
    shape: &[u8],
    body: usize,
    out: &mut [u8],
)
    requires { (b.planes ≤ 8) × (length palette.now ≤ 768) × (length frame.now ≡ b.h * b.w)
        × (length shape.now ≡ b.h * shape_width b) × (body ≡ length (body_bytes b frame.now shape.now))
        × Room (picture_file b palette.now frame.now shape.now) out.old 0 }
    ensures { out.new
        ≡ put out.old 0 (picture_file b palette.now frame.now shape.now) }
{
    let colours = palette_size(palette.len());
    put_head(FORM, 40 + colours + body + body % 2, out, 0);
    put_header(b, out);
    put_palette(palette, out);
    put_head(BODY, body, out, 40 + colours);
    let end = put_body(b, frame, shape, out, 48 + colours);
    put_pad(body, out, end);
}
