// The exported call on a BMHD by its bytes alone: 0 or the number of a refusal, and beside a refusal every field 0.
#![tactic(auto)]

ghost use Rattle.std.specs.Prelude.{◌≡◌};
ghost use Rattle.export_fields.specs.Fields.{bmhd_of, bmhd_numbers};

use iff_refusal::Reason;
use ilbm_fields::{bitmap_header, no_header};
use ilbm_spec::BitmapHeader;

// What is told of a BMHD: 0 and its fields, or the number of a refusal with every field 0. C is told numbers, so it is no Result.
#[derive(Clone, Copy)]
pub struct BmhdNumbers {
    pub number: usize,
    pub header: BitmapHeader,
}

fn bmhd_numbers(v: Result<BitmapHeader, Reason>) -> BmhdNumbers
    ensures { result ≡ bmhd_numbers v }
{
    match v {
        Ok(header) => BmhdNumbers { number: 0, header },
        Err(reason) => BmhdNumbers {
            number: reason.number(),
            header: no_header(),
        },
    }
}

// The header that the bytes of a BMHD give: 23 unless there are 20.
fn bmhd(data: &[u8]) -> Result<BitmapHeader, Reason>
    ensures { result ≡ bmhd_of «data».now }
{
    if data.len() != 20 {
        return Err(Reason::WrongSize);
    }
    Ok(bitmap_header(data))
}

// The fields of a BMHD.
#[unsafe(no_mangle)]
pub extern "C" fn ilbm_bmhd(
    data: &[u8],
    w: &mut u16,
    h: &mut u16,
    x: &mut i16,
    y: &mut i16,
    planes: &mut u8,
    masking: &mut u8,
    compression: &mut u8,
    pad1: &mut u8,
    transparent: &mut u16,
    x_aspect: &mut u8,
    y_aspect: &mut u8,
    page_width: &mut i16,
    page_height: &mut i16,
) -> usize
    ensures { record {
      number = result;
      header = record {
        w = w.exit.now;
        h = h.new;
        x = x.new;
        y = y.new;
        planes = planes.new;
        masking = masking.new;
        compression = compression.new;
        pad1 = pad1.new;
        transparent = transparent.new;
        x_aspect = x_aspect.new;
        y_aspect = y_aspect.new;
        page_width = page_width.new;
        page_height = page_height.new;
      };
    } ≡ bmhd_numbers (bmhd_of «data».now) }
{
    let numbers = bmhd_numbers(bmhd(data));
    let b = numbers.header;
    let left = b.x;
    let top = b.y;
    let width = b.page_width;
    let height = b.page_height;
    *w = b.w;
    *h = b.h;
    *x = left;
    *y = top;
    *planes = b.planes;
    *masking = b.masking;
    *compression = b.compression;
    *pad1 = b.pad1;
    *transparent = b.transparent;
    *x_aspect = b.x_aspect;
    *y_aspect = b.y_aspect;
    *page_width = width;
    *page_height = height;
    numbers.number
}
