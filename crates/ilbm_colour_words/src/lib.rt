// The tables of 256 numbers by which the colours of a scan line are made, a colour as one number each.
#![tactic(auto)]

ghost use Rattle.std.specs.Prelude.{◌≡◌, ℕ, ◌-◌, ◌^◌, ◌≤◌, ◌<◌};
ghost use Rattle.ilbm_spec.specs.Colours.{black, level, number_colour};
ghost use Rattle.ilbm_colour_words.specs.Words.{packed, keep_of, set_of, SixOrEight, IsPalette, IsKeep, IsSet};

use ilbm_palette_colours::{entry, number_colour};
use ilbm_spec::Colour;

// A colour as one number, red lowest.
fn word(c: Colour) -> u32
    ensures { result ≡ packed c }
{
    (c.red as u32) + (c.green as u32) * 256 + (c.blue as u32) * 65536
}

// ---- through the palette

// So many numbers that all from there on are black: an entry for each three bytes of the palette, 32 more for the halves.
fn number_count(half: bool, palette: &[u8]) -> usize
    ensures { (result ≤ 256) × ((code : ℕ) → result ≤ code → code < 256 → number_colour half palette.now code ≡ black) }
{
    let entries = palette.len() / 3;
    if 224 <= entries {
        return 256;
    }
    if half {
        return entries + 32;
    }
    entries
}

// The table for pictures that go through their palette.
pub fn palette_words(half: bool, palette: &[u8]) -> [u32; 256]
    ensures { IsPalette half palette.now result }
{
    let mut words = [0; 256];
    let count = number_count(half, palette);
    for i in 0..count {
        words[i] = word(number_colour(half, palette, i as u8));
    }
    words
}

// ---- hold-and-modify

// How many values the data bits of a colour number have.
fn data_values(planes: u8) -> u8
    requires { SixOrEight planes }
    ensures { (result ≡ 2 ^ (planes - 2)) × (0 < result) }
{
    if planes == 6 {
        return 16;
    }
    64
}

// How many colour numbers there are.
fn code_count(planes: u8) -> usize
    requires { SixOrEight planes }
    ensures { (result ≡ 2 ^ planes) × (result ≤ 256) }
{
    if planes == 6 {
        return 64;
    }
    256
}

// A colour's part from four or six data bits.
fn part(planes: u8, v: u8) -> u32
    ensures { (result ≡ level planes v) × (result < 65536) }
{
    let wide = v as u32;
    if planes == 6 {
        return 17 * wide;
    }
    4 * wide + wide / 16
}

// The bits of the parts that are held.
fn keep_word(planes: u8, code: u8) -> u32
    requires { SixOrEight planes }
    ensures { result ≡ keep_of planes code }
{
    let chosen = code / data_values(planes);
    if chosen == 0 {
        return 0;
    }
    if chosen == 1 {
        return 0x00FFFF;
    }
    if chosen == 2 {
        return 0xFFFF00;
    }
    0xFF00FF
}

// The part that is set, or the entry.
fn set_word(planes: u8, palette: &[u8], code: u8) -> u32
    requires { SixOrEight planes }
    ensures { result ≡ set_of planes palette.now code }
{
    let values = data_values(planes);
    let v = code % values;
    let choice = code / values;
    if choice == 0 {
        return word(entry(palette, v));
    }
    let level = part(planes, v);
    if choice == 1 {
        return level * 65536;
    }
    if choice == 2 {
        return level;
    }
    level * 256
}

// The table of what is held.
pub fn keep_words(planes: u8) -> [u32; 256]
    requires { SixOrEight planes }
    ensures { IsKeep planes result }
{
    let mut keep = [0; 256];
    let count = code_count(planes);
    for i in 0..count {
        keep[i] = keep_word(planes, i as u8);
    }
    keep
}

// The table of what is set.
pub fn set_words(planes: u8, palette: &[u8]) -> [u32; 256]
    requires { SixOrEight planes }
    ensures { IsSet planes palette.now result }
{
    let mut set = [0; 256];
    let count = code_count(planes);
    for i in 0..count {
        set[i] = set_word(planes, palette, i as u8);
    }
    set
}
