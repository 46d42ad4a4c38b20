// A reader that holds the lent file and its place in it, and tells the file's structure refusal. Each function over it takes it apart and
// leaves the work to a function of the slice and the place.
#![tactic(auto)]

ghost use Rattle.std.specs.Prelude.{◌≡◌};
ghost use Rattle.list_reader.specs.Reading.{opening_of, first_place, step_at, place_after};

use iff_refusal::Refusal;
use list_reader::{Place, opening_of, place_after, step_at};
use list_spec::Record;

// The lent file, the reader's place in it, and the file's structure refusal, if any.
#[derive(Clone, Copy)]
pub struct Reader<'a> {
    pub file: &'a [u8],
    pub place: Place,
    pub refusal: Option<Refusal>,
}

// The reader of a file, at its first record, with the structure refusal, if any.
pub fn new<'a>(file: &'a [u8]) -> Reader<'a>
    ensures { (result.file ≡ file.entry) × (record { place = result.place; refusal = result.refusal } ≡ opening_of file.now) }
{
    let opening = opening_of(file);
    Reader {
        file,
        place: opening.place,
        refusal: opening.refusal,
    }
}

// The record at a reader's place, or the end.
pub fn next<'a>(r: Reader<'a>) -> Option<Record>
    ensures { result ≡ step_at r.entry.file.now r.entry.place }
{
    step_at(r.file, r.place)
}

// The reader one record further.
pub fn advanced<'a>(r: Reader<'a>) -> Reader<'a>
    ensures { (result.file ≡ r.entry.file) × (result.place ≡ place_after r.entry.file.now r.entry.place) ×
        (result.refusal ≡ r.entry.refusal) }
{
    let file = r.file;
    let place = place_after(file, r.place);
    Reader {
        file,
        place,
        refusal: r.refusal,
    }
}

// What a new reader gives first.
pub fn first(s: &[u8]) -> Option<Record>
    ensures { result ≡ step_at s.now (first_place s.now) }
{
    next(new(s))
}
