// Each answer on a picture's properties as the numbers that the exported calls tell of it.
#![tactic(auto)]

ghost use Rattle.std.specs.Prelude.{◌≡◌};
ghost use Rattle.export_property_numbers.specs.Properties.{shown, refused_with};
ghost use Rattle.export_property_numbers.specs.Properties.{header_numbers, grab_numbers, destination_numbers, sprite_numbers, view_mode_numbers};

use iff_refusal::Refusal;
use ilbm_fields::no_header;
use ilbm_numbers::{origin_number, shared_place};
use ilbm_spec::{BitmapHeader, Destination, HotSpot, Origin, Picture};

// What is told of a property: a refusal's number and place, or 0 and 0; and the property and where it comes from. C is told numbers, so it
// is no Result.
#[derive(Clone, Copy)]
pub struct PropertyNumbers<T> {
    pub number: usize,
    pub place: usize,
    pub value: T,
    pub origin: usize,
    pub shared: usize,
}

fn shown<T: Copy>(value: T, o: Origin) -> PropertyNumbers<T>
    ensures { result ≡ shown value o }
{
    PropertyNumbers {
        number: 0,
        place: 0,
        value,
        origin: origin_number(o),
        shared: shared_place(o),
    }
}

fn refused_with<T: Copy>(r: Refusal, none: T) -> PropertyNumbers<T>
    ensures { result ≡ refused_with r none }
{
    PropertyNumbers {
        number: r.reason.number(),
        place: r.place,
        value: none,
        origin: 0,
        shared: 0,
    }
}

// What is told of the BMHD that counts.
pub fn header_numbers(v: Result<Picture, Refusal>) -> PropertyNumbers<BitmapHeader>
    ensures { result ≡ header_numbers v }
{
    match v {
        Ok(p) => shown(p.header, p.header_from),
        Err(r) => refused_with(r, no_header()),
    }
}

// What is told of the GRAB that counts.
pub fn grab_numbers(v: Result<Picture, Refusal>) -> PropertyNumbers<HotSpot>
    ensures { result ≡ grab_numbers v }
{
    match v {
        Ok(p) => shown(p.grab, p.grab_from),
        Err(r) => refused_with(r, HotSpot { x: 0, y: 0 }),
    }
}

// What is told of the DEST that counts.
pub fn destination_numbers(v: Result<Picture, Refusal>) -> PropertyNumbers<Destination>
    ensures { result ≡ destination_numbers v }
{
    match v {
        Ok(p) => shown(p.destination, p.destination_from),
        Err(r) => refused_with(
            r,
            Destination {
                depth: 0,
                pad1: 0,
                plane_pick: 0,
                plane_on_off: 0,
                plane_mask: 0,
            },
        ),
    }
}

// What is told of the SPRT that counts.
pub fn sprite_numbers(v: Result<Picture, Refusal>) -> PropertyNumbers<u16>
    ensures { result ≡ sprite_numbers v }
{
    match v {
        Ok(p) => shown(p.sprite, p.sprite_from),
        Err(r) => refused_with(r, 0u16),
    }
}

// What is told of the CAMG that counts.
pub fn view_mode_numbers(v: Result<Picture, Refusal>) -> PropertyNumbers<u32>
    ensures { result ≡ view_mode_numbers v }
{
    match v {
        Ok(p) => shown(p.view_mode, p.view_mode_from),
        Err(r) => refused_with(r, 0u32),
    }
}
