// Reading a file record by record, as functions of the file and a place in it. They ask nothing of the place: any place gives a
// record or the end.
#![tactic(auto)]

ghost use Rattle.std.specs.Prelude.{◌≡◌};
ghost use Rattle.list_spec.specs.Records.{count_of};
ghost use Rattle.list_reader.specs.Reading.{opening_of, step_at, place_after};

use iff_refusal::Refusal;
use list_cursor::Cursor;
use list_spec::Record;

// Where a reader stands: the cursor at the next chunk, with the ends of the groups around it, and how many chunks there are to read.
#[derive(Clone, Copy)]
pub struct Place {
    pub cursor: Cursor,
    pub chunks: usize,
}

// What a reader of a file is made with: the place at the first chunk, and the structure refusal, if any.
#[derive(Clone, Copy)]
pub struct Opening {
    pub place: Place,
    pub refusal: Option<Refusal>,
}

// What a reader of a file is made with, by one check; in a refused file there are no chunks to read.
pub fn opening_of(s: &[u8]) -> Opening
    ensures { result ≡ opening_of s.now }
{
    let cursor = list_cursor::first();
    match iff_tree::check(s) {
        Ok(accepted) => Opening {
            place: Place {
                cursor,
                chunks: accepted.chunks,
            },
            refusal: None,
        },
        Err(r) => Opening {
            place: Place { cursor, chunks: 0 },
            refusal: Some(r),
        },
    }
}

// What a reader of a file gives at a place: the record there, or nothing at the end.
pub fn step_at(s: &[u8], place: Place) -> Option<Record>
    ensures { result ≡ step_at s.now place }
{
    let cur = place.cursor;
    if place.chunks <= cur.number {
        return None;
    }
    list_checked_cursor::read_at(s, cur).ok()
}

// The place one record further; at the end it stays.
pub fn place_after(s: &[u8], place: Place) -> Place
    ensures { result ≡ place_after s.now place }
{
    let here = place.cursor;
    if place.chunks <= here.number {
        return place;
    }
    let there = list_checked_cursor::moved(s, here);
    Place {
        cursor: there,
        chunks: place.chunks,
    }
}

// How many records a reader of a file gives before the end.
pub fn count_by_reading(s: &[u8]) -> usize
    ensures { result ≡ count_of s.now }
{
    let mut place = opening_of(s).place;
    let mut n = 0usize;
    while step_at(s, place).is_some() {
        n += 1;
        place = place_after(s, place);
    }
    n
}
