// The data of BODY as the writer makes them: plane rows of each scan line, plain or packed. Lengths are told before a byte is written.
#![tactic(auto)]

ghost use Rattle.std.specs.Prelude.{◌≡◌, ◌+◌, ◌*◌, ◌^◌, ◌≤◌, ◌<◌, length};
ghost use Rattle.byterun_pack.specs.Pack.{packed};
ghost use Rattle.byterun_pack.specs.Written.{written_row};
ghost use Rattle.write_plane_row.specs.Planes.{plane_row};
ghost use Rattle.write_plane_row.specs.Put.{put, Room};
ghost use Rattle.ilbm_spec.specs.Rows.{row_length, mask_rows};
ghost use Rattle.write_body.specs.Body.{line_rows, line_bytes, shape_width, body_bytes};

use ilbm_spec::BitmapHeader;
use write_plane_row::plane_row;

// The length of a plane row that is packed; the row is made in a buffer of its length.
fn packed_row_len(line: &[u8], k: usize, n: usize, row: &mut [u8]) -> usize
    requires { (k < 8) × (n ≤ 8192) × (length row.old ≡ n) }
    ensures { result ≡ length (packed (plane_row (2 ^ k) line.now 0 n)) }
{
    plane_row(line, k, n, row, 0);
    byterun_pack::packed_len(row)
}

// The length of a plane row as it is written.
fn row_len(compression: u8, line: &[u8], k: usize, n: usize) -> usize
    requires { (k < 8) × (n ≤ 8192) }
    ensures { result ≡ length (written_row compression (plane_row (2 ^ k) line.now 0 n)) }
{
    if compression == 0 {
        return n;
    }
    if n <= 512 {
        let mut small = [0u8; 512];
        return packed_row_len(line, k, n, &mut small[0..n]);
    }
    let mut row = [0u8; 8192];
    packed_row_len(line, k, n, &mut row[0..n])
}

// The length of a scan line as it is written. (A call of its own, so that its row of 8 KiB is off the stack when a line is put.)
#[inline(never)]
fn line_len(compression: u8, n: usize, line: &[u8], planes: usize) -> usize
    requires { (n ≤ 8192) × (planes ≤ 8) }
    ensures is { result ≡ length (line_rows compression n line.now 1 planes) }
    ensures short { result ≤ 66048 }
{
    let mut total = 0;
    for k in 0..planes {
        total += row_len(compression, line, k, n);
    }
    total
}

// Packs a row to a place of out, and tells its length there.
fn pack_at(row: &[u8], out: &mut [u8], at: usize) -> usize
    requires { at + length (packed row.now) ≤ length out.old }
    ensures is { result ≡ length (packed row.now) }
    ensures bytes { out.new ≡ put out.old at (packed row.now) }
{
    byterun_pack::pack_into(row, &mut out[at..])
}

// Writes a plane row that is packed, and tells its length; the row is made in a buffer of its length.
fn put_packed_row(
    line: &[u8],
    k: usize,
    n: usize,
    row: &mut [u8],
    out: &mut [u8],
    at: usize,
) -> usize
    requires { (k < 8) × (n ≤ 8192) × (length row.old ≡ n) × (at + length (packed (plane_row (2 ^ k) line.now 0 n)) ≤ length out.old) }
    ensures is { result ≡ length (packed (plane_row (2 ^ k) line.now 0 n)) }
    ensures bytes { out.new ≡ put out.old at (packed (plane_row (2 ^ k) line.now 0 n)) }
{
    plane_row(line, k, n, row, 0);
    pack_at(row, out, at)
}

// Writes a plane row, and tells its length.
fn put_row(compression: u8, line: &[u8], k: usize, n: usize, out: &mut [u8], at: usize) -> usize
    requires { (k < 8) × (n ≤ 8192) × (at + length (written_row compression (plane_row (2 ^ k) line.now 0 n)) ≤ length out.old) }
    ensures is { result ≡ length (written_row compression (plane_row (2 ^ k) line.now 0 n)) }
    ensures bytes { out.new ≡ put out.old at (written_row compression (plane_row (2 ^ k) line.now 0 n)) }
{
    if compression == 0 {
        plane_row(line, k, n, out, at);
        return n;
    }
    if n <= 512 {
        let mut small = [0u8; 512];
        return put_packed_row(line, k, n, &mut small[0..n], out, at);
    }
    let mut row = [0u8; 8192];
    put_packed_row(line, k, n, &mut row[0..n], out, at)
}

// Writes a scan line, and tells where it ends.
fn put_line(
    compression: u8,
    n: usize,
    line: &[u8],
    planes: usize,
    out: &mut [u8],
    at: usize,
) -> usize
    requires { (n ≤ 8192) × (planes ≤ 8) × Room (line_rows compression n line.now 1 planes) out.old at }
    ensures ends { result ≡ at + length (line_rows compression n line.now 1 planes) }
    ensures bytes { out.new ≡ put out.old at (line_rows compression n line.now 1 planes) }
{
    let mut q = at;
    for k in 0..planes {
        q += put_row(compression, line, k, n, out, q);
    }
    q
}

// Whether a scan line has a mask row: 1 or 0.
fn mask_rows(masking: u8) -> usize
    ensures is { result ≡ mask_rows masking }
    ensures few { result ≤ 1 }
{
    if masking == 1 {
        return 1;
    }
    0
}

// How many bytes of the shape belong to a scan line.
pub fn shape_width(b: BitmapHeader) -> usize
    ensures is { result ≡ shape_width b }
    ensures short { result < 65536 }
{
    if b.masking == 1 {
        return b.w as usize;
    }
    0
}

// The length of a plane row.
fn plane_row_len(w: u16) -> usize
    ensures is { result ≡ row_length w }
    ensures short { result ≤ 8192 }
{
    2 * ((w as usize + 15) / 16)
}

// The length of a scan line with its mask row.
fn shaped_line_len(b: BitmapHeader, line: &[u8], shape: &[u8]) -> usize
    requires { b.planes ≤ 8 }
    ensures is { result ≡ length (line_bytes b line.now shape.now) }
    ensures short { result ≤ 132096 }
{
    let n = plane_row_len(b.w);
    let planes = b.planes as usize;
    let masks = mask_rows(b.masking);
    line_len(b.compression, n, line, planes) + line_len(b.compression, n, shape, masks)
}

// Writes a scan line with its mask row, and tells where it ends.
fn put_shaped_line(b: BitmapHeader, line: &[u8], shape: &[u8], out: &mut [u8], at: usize) -> usize
    requires { (b.planes ≤ 8) × Room (line_bytes b line.now shape.now) out.old at }
    ensures ends { result ≡ at + length (line_bytes b line.now shape.now) }
    ensures bytes { out.new ≡ put out.old at (line_bytes b line.now shape.now) }
{
    let n = plane_row_len(b.w);
    let planes = b.planes as usize;
    let masks = mask_rows(b.masking);
    let q = put_line(b.compression, n, line, planes, out, at);
    put_line(b.compression, n, shape, masks, out, q)
}

// The length of BODY.
pub fn body_len(b: BitmapHeader, frame: &[u8], shape: &[u8]) -> usize
    requires { (b.planes ≤ 8) × (length frame.now ≡ b.h * b.w) × (length shape.now ≡ b.h * shape_width b) }
    ensures is { result ≡ length (body_bytes b frame.now shape.now) }
    ensures short { result < 4503599627370496 }
{
    let w = b.w as usize;
    let h = b.h as usize;
    let shape_w = shape_width(b);
    let mut total = 0;
    for y in 0..h {
        let line = &frame[y * w..y * w + w];
        let mask = &shape[y * shape_w..y * shape_w + shape_w];
        total += shaped_line_len(b, line, mask);
    }
    total
}

// Writes BODY's data, and tells where they end.
pub fn put_body(b: BitmapHeader, frame: &[u8], shape: &[u8], out: &mut [u8], place: usize) -> usize
    requires { (b.planes ≤ 8) × (length frame.now ≡ b.h * b.w) × (length shape.now ≡ b.h * shape_width b)
        × Room (body_bytes b frame.now shape.now) out.old place }
    ensures ends { result ≡ place + length (body_bytes b frame.now shape.now) }
    ensures bytes { out.new ≡ put out.old place (body_bytes b frame.now shape.now) }
{
    let w = b.w as usize;
    let h = b.h as usize;
    let shape_w = shape_width(b);
    let mut q = place;
    for y in 0..h {
        let line = &frame[y * w..y * w + w];
        let mask = &shape[y * shape_w..y * shape_w + shape_w];
        q = put_shaped_line(b, line, mask, out, q);
    }
    q
}
