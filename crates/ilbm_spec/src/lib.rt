// What a FORM ILBM tells: the types of its answers. The definitions are in specs/.
#![tactic(auto)]

// Where a property comes from: the FORM itself, a shared PROP at a place, or nowhere.
#[derive(Clone, Copy)]
pub enum Origin {
    Own,
    Shared(usize),
    Absent,
}

// The fields of BMHD.
#[derive(Clone, Copy)]
pub struct BitmapHeader {
    pub w: u16,
    pub h: u16,
    pub x: i16,
    pub y: i16,
    pub planes: u8,
    pub masking: u8,
    pub compression: u8,
    pub pad1: u8,
    pub transparent: u16,
    pub x_aspect: u8,
    pub y_aspect: u8,
    pub page_width: i16,
    pub page_height: i16,
}

// The fields of GRAB.
#[derive(Clone, Copy)]
pub struct HotSpot {
    pub x: i16,
    pub y: i16,
}

// The fields of DEST.
#[derive(Clone, Copy)]
pub struct Destination {
    pub depth: u8,
    pub pad1: u8,
    pub plane_pick: u16,
    pub plane_on_off: u16,
    pub plane_mask: u16,
}

// A picture's properties, each with its origin; the fields of an absent one are 0. The bytes of CMAP are the palette's.
#[derive(Clone, Copy)]
pub struct Picture {
    pub header: BitmapHeader,
    pub header_from: Origin,
    pub palette_from: Origin,
    pub grab: HotSpot,
    pub grab_from: Origin,
    pub destination: Destination,
    pub destination_from: Origin,
    pub sprite: u16,
    pub sprite_from: Origin,
    pub view_mode: u32,
    pub view_mode_from: Origin,
}

// The colour of a pixel or of a palette's entry.
#[derive(Clone, Copy)]
pub struct Colour {
    pub red: u8,
    pub green: u8,
    pub blue: u8,
}
