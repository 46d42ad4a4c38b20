// The colours of a palette's entries, and those that it gives to colour numbers.
#![tactic(auto)]

ghost use Rattle.std.specs.Prelude.{◌≡◌};
ghost use Rattle.ilbm_spec.specs.Colours.{entry_at, halved, holds, is_half_bright, number_colour};

use ilbm_spec::Colour;

// Entry i of a palette; black where it is not there whole.
pub fn entry(palette: &[u8], i: u8) -> Colour
    ensures { result ≡ entry_at palette.now i }
{
    let at = 3 * (i as usize);
    if at + 2 < palette.len() {
        return Colour {
            red: palette[at],
            green: palette[at + 1],
            blue: palette[at + 2],
        };
    }
    Colour {
        red: 0,
        green: 0,
        blue: 0,
    }
}

// Whether CAMG has bit 11, hold-and-modify.
pub fn holds(mode: u32) -> bool
    ensures { result ≡ holds mode }
{
    mode / 2048 % 2 == 1
}

// Whether a picture is half-bright: bit 7, 6 planes, no bit 11.
pub fn is_half_bright(mode: u32, planes: u8) -> bool
    ensures { result ≡ is_half_bright mode planes }
{
    if holds(mode) {
        return false;
    }
    if planes != 6 {
        return false;
    }
    mode / 128 % 2 == 1
}

// Each part halved, rounded down.
fn halved(c: Colour) -> Colour
    ensures { result ≡ halved c }
{
    Colour {
        red: c.red / 2,
        green: c.green / 2,
        blue: c.blue / 2,
    }
}

// The colour that a palette gives to a colour number; from 32 on a half, if the picture is half-bright.
pub fn number_colour(half: bool, palette: &[u8], i: u8) -> Colour
    ensures { result ≡ number_colour half palette.now i }
{
    if !half {
        return entry(palette, i);
    }
    if i < 32 {
        return entry(palette, i);
    }
    halved(entry(palette, i - 32))
}
