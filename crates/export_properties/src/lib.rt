// The exported calls on a picture's properties but its palette. Each returns 0 or the number of a refusal; whatever else it tells is 0 beside
// a refusal, but its place.
#![tactic(auto)]

ghost use Rattle.std.specs.Prelude.{◌≡◌};
ghost use Rattle.ilbm_spec.specs.Pictures.{picture_of};
ghost use Rattle.export_property_numbers.specs.Properties.{header_numbers, grab_numbers, destination_numbers, sprite_numbers, view_mode_numbers};

use export_property_numbers::{
    destination_numbers, grab_numbers, header_numbers, sprite_numbers, view_mode_numbers,
};
use ilbm_properties::picture;

// The fields of the BMHD that counts for a picture, and its origin.
#[unsafe(no_mangle)]
pub extern "C" fn ilbm_header(
    file: &[u8],
    number: usize,
    place: &mut usize,
    w: &mut u16,
    h: &mut u16,
    x: &mut i16,
    y: &mut i16,
    planes: &mut u8,
    masking: &mut u8,
    compression: &mut u8,
    pad1: &mut u8,
    transparent: &mut u16,
    x_aspect: &mut u8,
    y_aspect: &mut u8,
    page_width: &mut i16,
    page_height: &mut i16,
    origin: &mut usize,
    shared: &mut usize,
) -> usize
    ensures { record {
      number = result;
      place = place.new;
      value = record {
        w = w.exit.now;
        h = h.new;
        x = x.new;
        y = y.new;
        planes = planes.new;
        masking = masking.new;
        compression = compression.new;
        pad1 = pad1.new;
        transparent = transparent.new;
        x_aspect = x_aspect.new;
        y_aspect = y_aspect.new;
        page_width = page_width.new;
        page_height = page_height.new;
      };
      origin = origin.new;
      shared = shared.new;
    } ≡ header_numbers (picture_of file.now number) }
{
    let numbers = header_numbers(picture(file, number));
    let b = numbers.value;
    let left = b.x;
    let top = b.y;
    let width = b.page_width;
    let height = b.page_height;
    *place = numbers.place;
    *w = b.w;
    *h = b.h;
    *x = left;
    *y = top;
    *planes = b.planes;
    *masking = b.masking;
    *compression = b.compression;
    *pad1 = b.pad1;
    *transparent = b.transparent;
    *x_aspect = b.x_aspect;
    *y_aspect = b.y_aspect;
    *page_width = width;
    *page_height = height;
    *origin = numbers.origin;
    *shared = numbers.shared;
    numbers.number
}

// The GRAB that counts for a picture, and its origin.
#[unsafe(no_mangle)]
pub extern "C" fn ilbm_grab(
    file: &[u8],
    number: usize,
    place: &mut usize,
    x: &mut i16,
    y: &mut i16,
    origin: &mut usize,
    shared: &mut usize,
) -> usize
    ensures { record {
      number = result;
      place = place.new;
      value = record { x = x.exit.now; y = y.new };
      origin = origin.new;
      shared = shared.new;
    } ≡ grab_numbers (picture_of file.now number) }
{
    let numbers = grab_numbers(picture(file, number));
    let spot = numbers.value;
    let left = spot.x;
    let top = spot.y;
    *place = numbers.place;
    *x = left;
    *y = top;
    *origin = numbers.origin;
    *shared = numbers.shared;
    numbers.number
}

// The DEST that counts for a picture, and its origin.
#[unsafe(no_mangle)]
pub extern "C" fn ilbm_dest(
    file: &[u8],
    number: usize,
    place: &mut usize,
    depth: &mut u8,
    pad1: &mut u8,
    plane_pick: &mut u16,
    plane_on_off: &mut u16,
    plane_mask: &mut u16,
    origin: &mut usize,
    shared: &mut usize,
) -> usize
    ensures { record {
      number = result;
      place = place.new;
      value = record {
        depth = depth.exit.now;
        pad1 = pad1.new;
        plane_pick = plane_pick.new;
        plane_on_off = plane_on_off.new;
        plane_mask = plane_mask.new;
      };
      origin = origin.new;
      shared = shared.new;
    } ≡ destination_numbers (picture_of file.now number) }
{
    let numbers = destination_numbers(picture(file, number));
    let fields = numbers.value;
    *place = numbers.place;
    *depth = fields.depth;
    *pad1 = fields.pad1;
    *plane_pick = fields.plane_pick;
    *plane_on_off = fields.plane_on_off;
    *plane_mask = fields.plane_mask;
    *origin = numbers.origin;
    *shared = numbers.shared;
    numbers.number
}

// The SPRT that counts for a picture, and its origin.
#[unsafe(no_mangle)]
pub extern "C" fn ilbm_sprite(
    file: &[u8],
    number: usize,
    place: &mut usize,
    sprite: &mut u16,
    origin: &mut usize,
    shared: &mut usize,
) -> usize
    ensures { record {
      number = result;
      place = place.new;
      value = sprite.new;
      origin = origin.new;
      shared = shared.new;
    } ≡ sprite_numbers (picture_of file.now number) }
{
    let numbers = sprite_numbers(picture(file, number));
    *place = numbers.place;
    *sprite = numbers.value;
    *origin = numbers.origin;
    *shared = numbers.shared;
    numbers.number
}

// The CAMG that counts for a picture, and its origin.
#[unsafe(no_mangle)]
pub extern "C" fn ilbm_view_mode(
    file: &[u8],
    number: usize,
    place: &mut usize,
    view_mode: &mut u32,
    origin: &mut usize,
    shared: &mut usize,
) -> usize
    ensures { record {
      number = result;
      place = place.new;
      value = view_mode.new;
      origin = origin.new;
      shared = shared.new;
    } ≡ view_mode_numbers (picture_of file.now number) }
{
    let numbers = view_mode_numbers(picture(file, number));
    *place = numbers.place;
    *view_mode = numbers.value;
    *origin = numbers.origin;
    *shared = numbers.shared;
    numbers.number
}
