// The fields in the data of a picture's properties, and the refusals of a header by its fields.
#![tactic(auto)]

ghost use Rattle.std.specs.Prelude.{◌≡◌, [], ◌+◌, ◌≤◌, length, OnOk};
ghost use Rattle.iff_chunk.specs.Chunks.{word};
ghost use Rattle.ilbm_spec.specs.Pictures.{u16, signed, header_in, hot_spot_in, destination_in, empty_fields, fields_refusal};

use iff_chunk::size_at;
use iff_refusal::Reason;
use ilbm_spec::{BitmapHeader, Destination, HotSpot};

// A big-endian number of two bytes.
pub fn word_at(d: &[u8], i: usize) -> u16
    requires { i + 2 ≤ length d.now }
    ensures { result ≡ u16 d.now i }
{
    u16::from_be_bytes([d[i], d[i + 1]])
}

// A big-endian number of four bytes.
pub fn long_at(d: &[u8], i: usize) -> u32
    requires { i + 4 ≤ length d.now }
    ensures { result ≡ word d.now i }
{
    size_at(d, i) as u32
}

fn signed_at(d: &[u8], i: usize) -> i16
    requires { i + 2 ≤ length d.now }
    ensures { result ≡ signed (u16 d.now i) }
{
    i16::from_be_bytes([d[i], d[i + 1]])
}

// BMHD.
pub fn bitmap_header(d: &[u8]) -> BitmapHeader
    requires { 20 ≤ length d.now }
    ensures { result ≡ header_in d.now }
{
    BitmapHeader {
        w: word_at(d, 0),
        h: word_at(d, 2),
        x: signed_at(d, 4),
        y: signed_at(d, 6),
        planes: d[8],
        masking: d[9],
        compression: d[10],
        pad1: d[11],
        transparent: word_at(d, 12),
        x_aspect: d[14],
        y_aspect: d[15],
        page_width: signed_at(d, 16),
        page_height: signed_at(d, 18),
    }
}

// The header of no BMHD: every field 0.
pub fn no_header() -> BitmapHeader
    ensures { result ≡ header_in [] }
{
    BitmapHeader {
        w: 0,
        h: 0,
        x: 0,
        y: 0,
        planes: 0,
        masking: 0,
        compression: 0,
        pad1: 0,
        transparent: 0,
        x_aspect: 0,
        y_aspect: 0,
        page_width: 0,
        page_height: 0,
    }
}

// GRAB.
pub fn grab_fields(d: &[u8]) -> HotSpot
    requires { 4 ≤ length d.now }
    ensures { result ≡ hot_spot_in d.now }
{
    HotSpot {
        x: signed_at(d, 0),
        y: signed_at(d, 2),
    }
}

// DEST.
pub fn dest_fields(d: &[u8]) -> Destination
    requires { 8 ≤ length d.now }
    ensures { result ≡ destination_in d.now }
{
    Destination {
        depth: d[0],
        pad1: d[1],
        plane_pick: word_at(d, 2),
        plane_on_off: word_at(d, 4),
        plane_mask: word_at(d, 6),
    }
}

// w, h or nPlanes 0.
pub fn empty_fields(w: u16, h: u16, planes: u8) -> bool
    ensures { result ≡ empty_fields w h planes }
{
    w == 0 || h == 0 || planes == 0
}

// 41, 42, 43, and 24 if the picture is empty: fields that can't be shown.
#[tactic(auto, unfolding(ilbm_spec::specs::Pictures::fields_refusal))]
pub fn fields_refusal(planes: u8, masking: u8, compression: u8, empty: bool) -> Result<(), Reason>
    ensures answer { result ≡ fields_refusal planes masking compression empty }
    ensures few_planes { OnOk result (planes ≤ 8) }
{
    if 8 < planes {
        return Err(Reason::TooManyPlanes);
    }
    if 3 < masking {
        return Err(Reason::UnknownMasking);
    }
    if 1 < compression {
        return Err(Reason::UnknownCompression);
    }
    if empty {
        return Err(Reason::EmptyPicture);
    }
    Ok(())
}
