// The data of one chunk by its number: where it lies in the file, and as a part of the file.
#![tactic(auto)]

ghost use Rattle.std.specs.Prelude.{◌≡◌, Ok, ◌+◌, ◌-◌, ◌≤◌, length, take, drop};
ghost use Rattle.list_spec.specs.Contents.{part_in, extent_in, extent_of, Lies, data_of, data_answer, data_pointer};

use iff_refusal::{Reason, Refusal};
use list_by_number::record_by_number;
use list_spec::{Extent, Record};

// The data that was asked for: a refusal, if any, and the data's bytes, none with a refusal.
#[derive(Clone, Copy)]
pub struct DataAnswer<'a> {
    pub refusal: Option<Refusal>,
    pub bytes: &'a [u8],
}

// Where the data of the chunk of a record lies; 15 for a group.
fn extent_in(r: Record) -> Result<Extent, Refusal>
    requires { r.place + 8 + r.size ≤ 16777216 }
    ensures { result ≡ extent_in (Ok r) }
{
    let kind = r.kind;
    if iff_rules::is_group(kind) {
        return Err(Reason::IsGroup.at(0));
    }
    let from = r.place + 8;
    Ok(Extent {
        from,
        to: from + r.size,
    })
}

// Where the data of the chunk of a number lies in the file; 14 if there is no such record, 15 for a group.
#[tactic(auto, using(crate::proofs::DataLaws::extent_laws))]
pub fn data_extent(s: &[u8], number: usize) -> Result<Extent, Refusal>
    ensures is { result ≡ extent_of s.now number }
    ensures lies { Lies s.now (part_in result).from (part_in result).to (data_of s.now number) }
{
    let r = record_by_number(s, number)?;
    extent_in(r)
}

// The part of a file that an extent names.
fn part_of(s: &[u8], x: Extent) -> &[u8]
    requires { (x.from ≤ x.to) × (x.to ≤ length s.now) }
    ensures { (result.now ≡ take (x.to - x.from) (drop x.from s.now)) ×
        (result.ref_ptr ≡ (s.entry.ref_ptr.0, x.from + s.entry.ref_ptr.1)) }
{
    let from = x.from;
    let to = x.to;
    &s[from..to]
}

// The data of the chunk of a number, as a part of the file; with any refusal the empty part at the file's start.
pub fn data<'a>(s: &'a [u8], number: usize) -> DataAnswer<'a>
    ensures { (record { refusal = result.refusal; bytes = result.bytes.now } ≡ data_answer s.now number) ×
        (result.bytes.ref_ptr ≡ data_pointer s.now number s.entry.ref_ptr) }
{
    match data_extent(s, number) {
        Ok(x) => DataAnswer {
            refusal: None,
            bytes: part_of(s, x),
        },
        Err(r) => DataAnswer {
            refusal: Some(r),
            bytes: &s[..0],
        },
    }
}
