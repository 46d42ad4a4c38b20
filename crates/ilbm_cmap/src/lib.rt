// The palette of a picture.
#![tactic(auto)]

ghost use Rattle.std.specs.Prelude.{◌≡◌};
ghost use Rattle.ilbm_spec.specs.Palette.{palette_answer, palette_source, pointer};
ghost use Rattle.ilbm_cmap.specs.Parts.{PartIn, part_or, part_at, ColoursAre};

use iff_refusal::Refusal;
use ilbm_find::view_picture;

// The palette that was asked for: a refusal, if any, and the colours, three bytes each; none with a refusal.
#[derive(Clone, Copy)]
pub struct PaletteAnswer<'a> {
    pub refusal: Option<Refusal>,
    pub colours: &'a [u8],
}

// The same with the colours as a part of the file; no part where the default is meant.
#[derive(Clone, Copy)]
pub struct Colours {
    pub refusal: Option<Refusal>,
    pub part: Option<(usize, usize)>,
}

// Where the palette of picture i is taken from: the CMAP that counts, or nowhere; an empty part of the file after a refusal.
pub fn colours_of(s: &[u8], i: usize) -> Colours
    ensures { ColoursAre s.now i result }
{
    match view_picture(s, i) {
        Ok((c, _)) => Colours {
            refusal: None,
            part: c.cmap.part,
        },
        Err(r) => Colours {
            refusal: Some(r),
            part: Some((0, 0)),
        },
    }
}

// A part of the file, or the default where there is none.
pub fn part_or_default<'a>(s: &'a [u8], part: Option<(usize, usize)>, default: &'a [u8]) -> &'a [u8]
    requires { PartIn s.now part }
    ensures { (result.now ≡ part_or s.now part default.now) ×
        (result.ref_ptr ≡ part_at s.entry.ref_ptr part default.entry.ref_ptr) }
{
    match part {
        None => default,
        Some((from, to)) => &s[from..to],
    }
}

// The palette's part, or the default.
fn part_or<'a>(s: &'a [u8], c: Colours, default: &'a [u8]) -> &'a [u8]
    requires { PartIn s.now c.part }
    ensures { (result.now ≡ part_or s.now c.part default.now) ×
        (result.ref_ptr ≡ part_at s.entry.ref_ptr c.part default.entry.ref_ptr) }
{
    part_or_default(s, c.part, default)
}

// The palette of picture i: the CMAP that counts, as a part of the file, or the default where none counts; empty after a refusal.
pub fn palette<'a>(s: &'a [u8], i: usize, default: &'a [u8]) -> PaletteAnswer<'a>
    ensures { (record { refusal = result.refusal; colours = result.colours.now } ≡ palette_answer s.now i default.now) ×
        (result.colours.ref_ptr ≡ pointer (palette_source s.now i) s.entry.ref_ptr default.entry.ref_ptr) }
{
    let c = colours_of(s, i);
    let colours = part_or(s, c, default);
    PaletteAnswer {
        refusal: c.refusal,
        colours,
    }
}
