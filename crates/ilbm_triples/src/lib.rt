// The palette of a picture as 64 triples.
#![tactic(auto)]

ghost use Rattle.std.specs.Prelude.{◌≡◌};
ghost use Rattle.ilbm_spec.specs.Triples.{triples_by, triples_of};
ghost use Rattle.ilbm_find.specs.Seen.{Judged};
ghost use Rattle.ilbm_triples.specs.Done.{TriplesAre};

use iff_refusal::Refusal;
use ilbm_cmap::part_or_default;
use ilbm_content::Contents;
use ilbm_find::view_picture;
use ilbm_palette_colours::{is_half_bright, number_colour};
use ilbm_properties::view_mode;
use ilbm_spec::BitmapHeader;

// The triples of a palette, by the number that CAMG holds and the planes: its first 64 entries, or a half-bright picture's.
pub fn palette_triples(palette: &[u8], planes: u8, mode: u32) -> [[u8; 3]; 64]
    ensures { result ≡ triples_by mode planes palette.now }
{
    let half = is_half_bright(mode, planes);
    let mut triples = [[0; 3]; 64];
    for i in 0..64 {
        let c = number_colour(half, palette, i as u8);
        triples[i] = [c.red, c.green, c.blue];
    }
    triples
}

// The triples of a picture that is not refused: of its CMAP, or of the default where none counts.
fn picture_triples<'a>(
    s: &'a [u8],
    c: Contents,
    header: BitmapHeader,
    default: &'a [u8],
) -> [[u8; 3]; 64]
    requires { Judged s.now c header }
    ensures { TriplesAre s.now c header default.now result }
{
    let mode = view_mode(s, c.camg);
    let palette = part_or_default(s, c.cmap.part, default);
    palette_triples(palette, header.planes, mode)
}

// The triples that were asked for, and a refusal, if any; with it all are 0.
#[derive(Clone, Copy)]
pub struct PaletteTriples {
    pub refusal: Option<Refusal>,
    pub triples: [[u8; 3]; 64],
}

// The triples of picture i.
pub fn triples<'a>(s: &'a [u8], i: usize, default: &'a [u8]) -> PaletteTriples
    ensures { record { refusal = result.refusal; triples = result.triples } ≡ triples_of s.now i default.now }
{
    match view_picture(s, i) {
        Ok((c, header)) => PaletteTriples {
            refusal: None,
            triples: picture_triples(s, c, header, default),
        },
        Err(r) => PaletteTriples {
            refusal: Some(r),
            triples: [[0; 3]; 64],
        },
    }
}
