// The shape of a scan line, by its masking: which of its pixels are there.
#![tactic(auto)]

ghost use Rattle.std.specs.Prelude.{◌≡◌, ◌+◌, ◌*◌, ◌≤◌, eqb, length, replicate};
ghost use Rattle.iff_name.specs.Name.{pick};
ghost use Rattle.ilbm_spec.specs.Rows.{mask_rows, rows_in_line, colours_from};
ghost use Rattle.ilbm_spec.specs.Shapes.{opaque, shape_by};
ghost use Rattle.ilbm_spread.specs.Spread.{IsSpread};
ghost use Rattle.ilbm_gather.specs.Buffer.{rows_in};

use byterun_copy::fill_run;
use ilbm_gather::gather;

// Masking 1: the bits of the mask row, which stands behind those of the planes and is gathered as one of them.
fn put_mask(table: &[u64; 256], buffer: &[u8], n: usize, planes: usize, shape: &mut [u8])
    requires spread { IsSpread table.now }
    requires planes_bound { (planes ≤ 8) × ((planes + 1) * n ≤ length buffer.now) × (length shape.old ≤ n * 8) }
    ensures { shape.new ≡ colours_from 0 (length shape.old) (rows_in n 1 planes buffer.now) }
{
    let from = planes * n;
    gather(table, &buffer[from..], n, 1, shape);
}

// Masking 2: whether a pixel of this colour shows.
fn shows(colour: u8, transparent: u16) -> u8
    ensures { result ≡ pick (eqb colour transparent) 0 1 }
{
    if colour as u16 == transparent { 0 } else { 1 }
}

// Masking 2: 0 where the colour is the transparent one.
fn put_opaque(row: &[u8], transparent: u16, shape: &mut [u8])
    requires { length row.now ≡ length shape.old }
    ensures { shape.new ≡ opaque transparent row.now }
{
    for x in 0..shape.len() {
        shape[x] = shows(row[x], transparent);
    }
}

// Masking 0: all of them.
fn put_ones(shape: &mut [u8])
    ensures { shape.new ≡ replicate (length shape.old) 1 }
{
    fill_run(shape, 0, shape.len(), 1);
}

// Writes the shape of a scan line whose plane rows stand in the buffer, and whose colours in the row.
pub fn put_shape(
    table: &[u64; 256],
    buffer: &[u8],
    n: usize,
    planes: usize,
    masking: u8,
    transparent: u16,
    row: &[u8],
    shape: &mut [u8],
)
    requires spread { IsSpread table.now }
    requires planes_bound { (planes ≤ 8) × (rows_in_line planes masking * n ≤ length buffer.now) × (length shape.old ≤ n * 8) }
    requires row_len { length row.now ≡ length shape.old }
    ensures { shape.new ≡ shape_by masking transparent row.now
        (colours_from 0 (length shape.old) (rows_in n (mask_rows masking) planes buffer.now)) }
{
    if masking == 1 {
        put_mask(table, buffer, n, planes, shape);
        return;
    }
    if masking == 2 {
        put_opaque(row, transparent, shape);
        return;
    }
    put_ones(shape);
}
