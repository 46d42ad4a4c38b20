// The colours of a scan line, made in the row itself: the colour numbers stand in its last third, and the three bytes of each pixel are
// written from its front on, never past the number that is read next.
#![tactic(auto)]

ghost use Rattle.std.specs.Prelude.{◌≡◌, [], ◌∷◌, ◌+◌, ◌*◌, ◌/◌, ◌%◌, ◌≤◌, length, drop, get_or};
ghost use Rattle.std.proofs.Math.Seq.{paste};
ghost use Rattle.ilbm_colour_words.specs.Words.{word_bytes, by_palette, by_holding, carried_words};
ghost use Rattle.ilbm_colour_pixels.specs.Steps.{step_by};

use byterun_copy::put_three;

// Writes the bytes of a colour. The fourth is no part of it: the next pixel is written over it, and four bytes are one store.
fn put_four(row: &mut [u8], at: usize, v: u32)
    requires { at + 4 ≤ length row.old }
    ensures { row.new ≡ paste row.old at (v % 256 ∷ v / 256 % 256 ∷ v / 65536 % 256 ∷ v / 16777216 ∷ []) 4 }
{
    let a = (v % 256) as u8;
    let b = (v / 256 % 256) as u8;
    let c = (v / 65536 % 256) as u8;
    let d = (v / 16777216) as u8;
    row[at] = a;
    row[at + 1] = b;
    row[at + 2] = c;
    row[at + 3] = d;
}

// The same without the fourth byte, for a row's last pixel.
fn put_last(row: &mut [u8], at: usize, v: u32)
    requires { at + 3 ≤ length row.old }
    ensures { row.new ≡ paste row.old at (word_bytes v) 3 }
{
    let a = (v % 256) as u8;
    let b = (v / 256 % 256) as u8;
    let c = (v / 65536 % 256) as u8;
    put_three(row, at, a, b, c);
}

// The number of a pixel by a look-up.
fn looked_up(words: &[u32; 256], code: u8) -> u32
    ensures { result ≡ get_or words.now code 0 }
{
    words[code as usize]
}

// The number of a pixel by what it keeps of the one to its left, and what it sets.
fn modified(keep: &[u32; 256], set: &[u32; 256], held: u32, code: u8) -> u32
    ensures { result ≡ by_holding keep.now set.now held code }
{
    (held & looked_up(keep, code)) | looked_up(set, code)
}

// The pixels of a line through the palette.
fn colour_by_palette(words: &[u32; 256], w: usize, row: &mut [u8])
    requires { length row.old ≡ 3 * w }
    ensures { row.new ≡ carried_words (by_palette words.now) 0 (drop (2 * w) row.old) }
{
    if w == 0 {
        return;
    }
    let from = 2 * w;
    let last = w - 1;
    for x in 0..last {
        let v = looked_up(words, row[from + x]);
        put_four(row, 3 * x, v);
    }
    let v = looked_up(words, row[from + last]);
    put_last(row, 3 * last, v);
}

// The pixels of a line by hold-and-modify, from black on.
fn colour_by_holding(keep: &[u32; 256], set: &[u32; 256], w: usize, row: &mut [u8])
    requires { length row.old ≡ 3 * w }
    ensures { row.new
        ≡ carried_words (by_holding keep.now set.now) 0 (drop (2 * w) row.old) }
{
    if w == 0 {
        return;
    }
    let from = 2 * w;
    let last = w - 1;
    let mut held: u32 = 0;
    for x in 0..last {
        held = modified(keep, set, held, row[from + x]);
        put_four(row, 3 * x, held);
    }
    held = modified(keep, set, held, row[from + last]);
    put_last(row, 3 * last, held);
}

// The pixels of a line, either way; the palette's table is the one of what is set.
pub fn put_colours(hold: bool, keep: &[u32; 256], set: &[u32; 256], w: usize, row: &mut [u8])
    requires { length row.old ≡ 3 * w }
    ensures { row.new
        ≡ carried_words (step_by hold keep.now set.now) 0 (drop (2 * w) row.old) }
{
    if hold {
        colour_by_holding(keep, set, w, row);
    } else {
        colour_by_palette(set, w, row);
    }
}
