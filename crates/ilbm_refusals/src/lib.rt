// The refusals of a picture by its content: 21 to 23, and those of its header.
#![tactic(auto)]

ghost use Rattle.std.specs.Prelude.{◌≡◌, Some};
ghost use Rattle.ilbm_spec.specs.Pictures.{header_refusal};
ghost use Rattle.ilbm_refusals.specs.Refusals.{Sized, Full, SizeIs, TriplesIs, SizesAre, JudgementIs};

use iff_refusal::Reason;
use ilbm_content::{Contents, Held};
use ilbm_fields::{bitmap_header, empty_fields, fields_refusal};
use ilbm_spec::BitmapHeader;

fn size_not(h: Held, n: usize) -> bool
    requires { Sized h }
    ensures { SizeIs h n result }
{
    match h.part {
        None => false,
        Some((from, to)) => to - from != n,
    }
}

fn not_triples(h: Held) -> bool
    requires { Sized h }
    ensures { TriplesIs h result }
{
    match h.part {
        None => false,
        Some((from, to)) => (to - from) % 3 != 0,
    }
}

// 23: a property of a wrong size.
fn wrong_size(s: &[u8], c: Contents) -> bool
    requires { Full s.now c }
    ensures { SizesAre s.now c result }
{
    size_not(c.bmhd, 20)
        | not_triples(c.cmap)
        | size_not(c.grab, 4)
        | size_not(c.dest, 8)
        | size_not(c.sprt, 2)
        | size_not(c.camg, 4)
}

// 41, 42, 43, 24: a header that can't be shown; an empty picture can, without a BODY.
fn header_refusal(b: BitmapHeader, body: bool) -> Result<(), Reason>
    ensures { result ≡ header_refusal b body }
{
    let empty = empty_fields(b.w, b.h, b.planes);
    fields_refusal(b.planes, b.masking, b.compression, body & empty)
}

// 22, 23 or the header's, of a picture whose BMHD is a part of the file; or the header.
fn judge_header(s: &[u8], c: Contents, from: usize, to: usize) -> Result<BitmapHeader, Reason>
    requires { (Full s.now c) × (c.bmhd.part ≡ Some (from, to)) }
    ensures { JudgementIs s.now c result }
{
    if 1 < c.bodies {
        return Err(Reason::SecondBody);
    }
    if wrong_size(s, c) {
        return Err(Reason::WrongSize);
    }
    let header = bitmap_header(&s[from..to]);
    header_refusal(header, 0 < c.bodies)?;
    Ok(header)
}

// The refusal, or the header, read once for all calls.
pub fn judge(s: &[u8], c: Contents) -> Result<BitmapHeader, Reason>
    requires { Full s.now c }
    ensures { JudgementIs s.now c result }
{
    match c.bmhd.part {
        None => Err(Reason::NoHeader),
        Some((from, to)) => judge_header(s, c, from, to),
    }
}
