// The exported call on a picture's palette. It returns 0 or the number of a refusal; whatever else it tells is 0 beside a refusal, but
// its place.
#![tactic(auto)]

ghost use Rattle.std.specs.Prelude.{◌≡◌, []};
ghost use Rattle.std.proofs.Math.Seq.{slice};
ghost use Rattle.ilbm_spec.specs.Palette.{palette_answer};
ghost use Rattle.export_palette.specs.Palette.{palette_parts, palette_call};

use iff_refusal::Refusal;
use ilbm_content::Contents;
use ilbm_find::view_picture;
use ilbm_numbers::{origin_number, part_from, part_to, shared_place};
use ilbm_spec::BitmapHeader;

// What is told of the CMAP that counts: its origin, and its part of the file. C is told numbers, so it is no Result.
#[derive(Clone, Copy)]
pub struct PaletteParts {
    pub number: usize,
    pub place: usize,
    pub origin: usize,
    pub shared: usize,
    pub from: usize,
    pub to: usize,
}

fn palette_parts(v: Result<(Contents, BitmapHeader), Refusal>) -> PaletteParts
    ensures { result ≡ palette_parts v }
{
    match v {
        Ok((c, _)) => {
            let cmap = c.cmap;
            let part = cmap.part;
            let o = cmap.origin;
            PaletteParts {
                number: 0,
                place: 0,
                origin: origin_number(o),
                shared: shared_place(o),
                from: part_from(part),
                to: part_to(part),
            }
        }
        Err(r) => PaletteParts {
            number: r.reason.number(),
            place: r.place,
            origin: 0,
            shared: 0,
            from: 0,
            to: 0,
        },
    }
}

// Where the CMAP that counts for a picture lies in the file, and its origin; with origin 0 the caller's default is the palette.
#[unsafe(no_mangle)]
pub extern "C" fn ilbm_palette(
    file: &[u8],
    number: usize,
    place: &mut usize,
    origin: &mut usize,
    shared: &mut usize,
    from: &mut usize,
    to: &mut usize,
) -> usize
    ensures answer { record {
      number = result;
      place = place.new;
      origin = origin.new;
      shared = shared.new;
      from = from.new;
      to = to.new;
    } ≡ palette_call file.now number }
    ensures part { slice from.new to.new file.now ≡ (palette_answer file.now number []).colours }
{
    let numbers = palette_parts(view_picture(file, number));
    *place = numbers.place;
    *origin = numbers.origin;
    *shared = numbers.shared;
    *from = numbers.from;
    *to = numbers.to;
    numbers.number
}
