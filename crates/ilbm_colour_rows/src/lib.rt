// A scan line and a frame of a BODY in colours, by the tables that the mode and the palette make.
#![tactic(auto)]

ghost use Rattle.std.specs.Prelude.{◌≡◌, false, ◌*◌, ◌≤◌, length};
ghost use Rattle.ilbm_spec.specs.Rows.{row_length, rows_in_line, line_with, lines_with, line_answer, bytes_after};
ghost use Rattle.ilbm_spec.specs.Colours.{pixel_colour, coloured, wrong_planes};

use iff_refusal::Refusal;
use ilbm_colour_frame::scan_colour_frame;
use ilbm_colour_line::scan_colour_row;
use ilbm_colour_words::{keep_words, palette_words, set_words};
use ilbm_palette_colours::{holds, is_half_bright};

// A scan line by the tables of its mode.
pub fn coloured_row(
    body: &[u8],
    start: usize,
    w: usize,
    planes: u8,
    masking: u8,
    compression: u8,
    mode: u32,
    palette: &[u8],
    row: &mut [u8],
) -> Result<usize, Refusal>
    requires w_bound { (w ≤ 65535) × (planes ≤ 8) × (wrong_planes mode planes ≡ false) }
    requires row_len { length row.old ≡ 3 * w }
    ensures is { result ≡ line_answer (line_with (coloured w planes (pixel_colour mode planes palette.now))
        compression (row_length w) (rows_in_line planes masking) body.now start) }
    ensures bytes { row.new ≡ bytes_after (line_with (coloured w planes (pixel_colour mode planes palette.now))
        compression (row_length w) (rows_in_line planes masking) body.now start) row.old }
{
    let count = planes as usize;
    if holds(mode) {
        let keep = keep_words(planes);
        let set = set_words(planes, palette);
        scan_colour_row(
            true,
            &keep,
            &set,
            body,
            start,
            w,
            count,
            masking,
            compression,
            row,
        )
    } else {
        let half = is_half_bright(mode, planes);
        let colours = palette_words(half, palette);
        scan_colour_row(
            false,
            &colours,
            &colours,
            body,
            start,
            w,
            count,
            masking,
            compression,
            row,
        )
    }
}

// A frame by the tables of its mode.
pub fn coloured_frame(
    body: &[u8],
    w: usize,
    h: usize,
    planes: u8,
    masking: u8,
    compression: u8,
    mode: u32,
    palette: &[u8],
    frame: &mut [u8],
) -> Result<usize, Refusal>
    requires w_bound { (w ≤ 65535) × (h ≤ 65535) × (planes ≤ 8) × (wrong_planes mode planes ≡ false) }
    requires frame_len { length frame.old ≡ 3 * w * h }
    ensures is { result ≡ line_answer (lines_with (coloured w planes (pixel_colour mode planes palette.now))
        compression (row_length w) (rows_in_line planes masking) body.now h 0) }
    ensures bytes { frame.new ≡ bytes_after (lines_with (coloured w planes (pixel_colour mode planes palette.now))
        compression (row_length w) (rows_in_line planes masking) body.now h 0) frame.old }
{
    let count = planes as usize;
    if holds(mode) {
        let keep = keep_words(planes);
        let set = set_words(planes, palette);
        scan_colour_frame(
            true,
            &keep,
            &set,
            body,
            w,
            h,
            count,
            masking,
            compression,
            frame,
        )
    } else {
        let half = is_half_bright(mode, planes);
        let words = palette_words(half, palette);
        scan_colour_frame(
            false,
            &words,
            &words,
            body,
            w,
            h,
            count,
            masking,
            compression,
            frame,
        )
    }
}
