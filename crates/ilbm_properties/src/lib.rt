// The picture call.
#![tactic(auto)]

ghost use Rattle.std.specs.Prelude.{◌≡◌};
ghost use Rattle.ilbm_spec.specs.Pictures.{picture_of};
ghost use Rattle.ilbm_find.specs.Seen.{Judged};
ghost use Rattle.ilbm_properties.specs.Fields.{OfSize, GrabIs, DestinationIs, WordIs, LongIs, PictureIs};

use iff_refusal::Refusal;
use ilbm_content::{Contents, Held};
use ilbm_fields::{dest_fields, grab_fields, long_at, word_at};
use ilbm_find::view_picture;
use ilbm_spec::{BitmapHeader, Destination, HotSpot, Picture};

fn grab_of(s: &[u8], h: Held) -> HotSpot
    requires { OfSize s.now h 4 }
    ensures { GrabIs s.now h result }
{
    match h.part {
        None => HotSpot { x: 0, y: 0 },
        Some((from, to)) => grab_fields(&s[from..to]),
    }
}

fn destination_of(s: &[u8], h: Held) -> Destination
    requires { OfSize s.now h 8 }
    ensures { DestinationIs s.now h result }
{
    match h.part {
        None => Destination {
            depth: 0,
            pad1: 0,
            plane_pick: 0,
            plane_on_off: 0,
            plane_mask: 0,
        },
        Some((from, to)) => dest_fields(&s[from..to]),
    }
}

fn word_of(s: &[u8], h: Held) -> u16
    requires { OfSize s.now h 2 }
    ensures { WordIs s.now h result }
{
    match h.part {
        None => 0,
        Some((from, to)) => word_at(&s[from..to], 0),
    }
}

// The number that CAMG holds, 0 where none counts.
pub fn view_mode(s: &[u8], camg: Held) -> u32
    requires { OfSize s.now camg 4 }
    ensures { LongIs s.now camg result }
{
    match camg.part {
        None => 0,
        Some((from, to)) => long_at(&s[from..to], 0),
    }
}

fn picture_from(s: &[u8], c: Contents, header: BitmapHeader) -> Picture
    requires { Judged s.now c header }
    ensures { PictureIs s.now c header result }
{
    Picture {
        header,
        header_from: c.bmhd.origin,
        palette_from: c.cmap.origin,
        grab: grab_of(s, c.grab),
        grab_from: c.grab.origin,
        destination: destination_of(s, c.dest),
        destination_from: c.dest.origin,
        sprite: word_of(s, c.sprt),
        sprite_from: c.sprt.origin,
        view_mode: view_mode(s, c.camg),
        view_mode_from: c.camg.origin,
    }
}

// The properties of picture i with their origins, or a refusal.
pub fn picture(s: &[u8], i: usize) -> Result<Picture, Refusal>
    ensures { result ≡ picture_of s.now i }
{
    let (c, header) = view_picture(s, i)?;
    Ok(picture_from(s, c, header))
}
