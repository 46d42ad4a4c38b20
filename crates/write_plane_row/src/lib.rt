// A plane row of a scan line: the bits that the line's colour numbers have in that plane, eight pixels to a byte.
#![tactic(auto)]

ghost use Rattle.std.specs.Prelude.{◌≡◌, ◌+◌, ◌^◌, ◌≤◌, ◌<◌, length};
ghost use Rattle.write_plane_row.specs.Planes.{eight_bits, pixel, bits_from, plane_byte, plane_row};
ghost use Rattle.write_plane_row.specs.Put.{put};

// The bits that eight colour numbers have in plane k, as one byte.
fn eight(k: usize, a: u8, b: u8, c: u8, d: u8, e: u8, f: u8, g: u8, h: u8) -> u8
    requires { k < 8 }
    ensures { result ≡ eight_bits (2 ^ k) a b c d e f g h }
{
    (a >> k) % 2 * 128
        + (b >> k) % 2 * 64
        + (c >> k) % 2 * 32
        + (d >> k) % 2 * 16
        + (e >> k) % 2 * 8
        + (f >> k) % 2 * 4
        + (g >> k) % 2 * 2
        + (h >> k) % 2
}

// The colour number of pixel x, 0 beyond the line.
fn pixel(line: &[u8], x: usize) -> u8
    ensures { result ≡ pixel line.now x }
{
    if line.len() <= x {
        return 0;
    }
    line[x]
}

// The bits in plane k of the pixels from x on, where the line ends among them.
fn last_bits(line: &[u8], k: usize, x: usize) -> u8
    requires { (k < 8) × (x < 65536) }
    ensures { result ≡ bits_from (2 ^ k) line.now x }
{
    let a = pixel(line, x);
    let b = pixel(line, x + 1);
    let c = pixel(line, x + 2);
    let d = pixel(line, x + 3);
    let e = pixel(line, x + 4);
    let f = pixel(line, x + 5);
    let g = pixel(line, x + 6);
    let h = pixel(line, x + 7);
    eight(k, a, b, c, d, e, f, g, h)
}

// The same of eight pixels of the line.
fn inner_bits(line: &[u8], k: usize, x: usize) -> u8
    requires { (k < 8) × (x < 65536) × (x + 8 ≤ length line.now) }
    ensures { result ≡ bits_from (2 ^ k) line.now x }
{
    let a = line[x];
    let b = line[x + 1];
    let c = line[x + 2];
    let d = line[x + 3];
    let e = line[x + 4];
    let f = line[x + 5];
    let g = line[x + 6];
    let h = line[x + 7];
    eight(k, a, b, c, d, e, f, g, h)
}

// Byte j of the row of plane k.
fn plane_byte(line: &[u8], k: usize, j: usize) -> u8
    requires { (k < 8) × (j < 8192) }
    ensures { result ≡ plane_byte (2 ^ k) line.now j }
{
    let x = 8 * j;
    if line.len() < x + 8 {
        return last_bits(line, k, x);
    }
    inner_bits(line, k, x)
}

// Writes a plane row of n bytes.
pub fn plane_row(line: &[u8], k: usize, n: usize, out: &mut [u8], at: usize)
    requires { (k < 8) × (n ≤ 8192) × (at + n ≤ length out.old) }
    ensures { out.new ≡ put out.old at (plane_row (2 ^ k) line.now 0 n) }
{
    for j in 0..n {
        out[at + j] = plane_byte(line, k, j);
    }
}
