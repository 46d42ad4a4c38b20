// The colour numbers of a row of pixels, gathered from its plane rows by the table of spread bytes: the eight pixels of a byte at a time,
// and the last of them one by one.
#![tactic(auto)]

ghost use Rattle.std.specs.Prelude.{◌≡◌, ◌+◌, ◌*◌, ◌/◌, ◌≤◌, ◌<◌, length, take};
ghost use Rattle.std.proofs.Math.Seq.{paste};
ghost use Rattle.ilbm_spec.specs.Rows.{colour_by, colours_from};
ghost use Rattle.ilbm_spread.specs.Spread.{IsSpread, bytes_of};
ghost use Rattle.ilbm_gather.specs.Buffer.{rows_in, eight_from};

use byterun_copy::put_eight;

// A byte as a number.
fn wide(x: u8) -> usize
    ensures { (result ≡ x) × (result < 256) }
{
    x as usize
}

// The colour number of pixel x, from the last plane down.
fn colour_at(buffer: &[u8], n: usize, planes: usize, x: usize) -> u8
    requires { (planes ≤ 8) × (planes * n ≤ length buffer.now) × (x / 8 < n) }
    ensures { result ≡ colour_by 1 x (rows_in n planes 0 buffer.now) }
{
    let byte = x / 8;
    let place = 7 - x % 8;
    let mut colour: usize = 0;
    for k in (0..planes).rev() {
        colour = colour * 2 + (wide(buffer[k * n + byte]) >> place) % 2;
    }
    colour as u8
}

// The colour numbers of the eight pixels of a byte, of the planes from k on, where v has those of the planes after k.
fn with_plane(
    table: &[u64; 256],
    buffer: &[u8],
    n: usize,
    planes: usize,
    byte: usize,
    k: usize,
    v: u64,
) -> u64
    requires planes_bound { (planes ≤ 8) × (planes * n ≤ length buffer.now) × (byte < n) }
    requires spread { IsSpread table.now }
    requires v_value { v ≡ eight_from n planes byte (k + 1) buffer.now }
    ensures { result ≡ eight_from n planes byte k buffer.now }
{
    if k < planes {
        v * 2 + table[wide(buffer[k * n + byte])]
    } else {
        v
    }
}

// The colour numbers of the eight pixels of a byte, from the last plane down.
fn eight_at(table: &[u64; 256], buffer: &[u8], n: usize, planes: usize, byte: usize) -> u64
    requires planes_bound { (planes ≤ 8) × (planes * n ≤ length buffer.now) × (byte < n) }
    requires spread { IsSpread table.now }
    ensures { result ≡ eight_from n planes byte 0 buffer.now }
{
    let h = with_plane(table, buffer, n, planes, byte, 7, 0);
    let g = with_plane(table, buffer, n, planes, byte, 6, h);
    let f = with_plane(table, buffer, n, planes, byte, 5, g);
    let e = with_plane(table, buffer, n, planes, byte, 4, f);
    let d = with_plane(table, buffer, n, planes, byte, 3, e);
    let c = with_plane(table, buffer, n, planes, byte, 2, d);
    let b = with_plane(table, buffer, n, planes, byte, 1, c);
    with_plane(table, buffer, n, planes, byte, 0, b)
}

// Writes the eight bytes of a word, the lowest first.
fn put_word(row: &mut [u8], x: usize, v: u64)
    requires { x + 8 ≤ length row.old }
    ensures { row.new ≡ paste row.old x (bytes_of v) 8 }
{
    let a = (v % 256) as u8;
    let b = (v / 0x100 % 256) as u8;
    let c = (v / 0x10000 % 256) as u8;
    let d = (v / 0x1000000 % 256) as u8;
    let e = (v / 0x100000000 % 256) as u8;
    let f = (v / 0x10000000000 % 256) as u8;
    let g = (v / 0x1000000000000 % 256) as u8;
    let h = (v / 0x100000000000000) as u8;
    put_eight(row, x, a, b, c, d, e, f, g, h);
}

// The colour numbers of a row of pixels, byte by byte; the last byte may have fewer than eight of them. How many are written.
fn gather_bytes(table: &[u64; 256], buffer: &[u8], n: usize, planes: usize, row: &mut [u8]) -> usize
    requires planes_bound { (planes ≤ 8) × (planes * n ≤ length buffer.now) × (length row.old ≤ n * 8) }
    requires spread { IsSpread table.now }
    ensures { (result ≤ length row.new)
        × (take result row.new ≡ colours_from 0 result (rows_in n planes 0 buffer.now)) }
{
    let bytes = row.len() / 8;
    for j in 0..bytes {
        put_word(row, 8 * j, eight_at(table, buffer, n, planes, j));
    }
    8 * bytes
}

// The colour numbers of a row of pixels.
pub fn gather(table: &[u64; 256], buffer: &[u8], n: usize, planes: usize, row: &mut [u8])
    requires planes_bound { (planes ≤ 8) × (planes * n ≤ length buffer.now) × (length row.old ≤ n * 8) }
    requires spread { IsSpread table.now }
    ensures { row.new ≡ colours_from 0 (length row.old) (rows_in n planes 0 buffer.now) }
{
    let done = gather_bytes(table, buffer, n, planes, row);
    for x in done..row.len() {
        row[x] = colour_at(buffer, n, planes, x);
    }
}
