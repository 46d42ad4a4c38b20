// One record by its number.
#![tactic(auto)]

ghost use Rattle.std.specs.Prelude.{◌≡◌, Ok, ◌<◌};
ghost use Rattle.list_spec.specs.Records.{count_of, record_of};
ghost use Rattle.list_cursor.specs.Cursors.{first_cursor, Located};

use iff_refusal::{Reason, Refusal};
use list_spec::Record;

// The record of a number below the count, in a file that is accepted.
fn nth(s: &[u8], number: usize) -> Record
    requires { (Located s.now first_cursor) × (number < count_of s.now) }
    ensures { Ok result ≡ record_of s.now number }
{
    let mut cur = list_cursor::first();
    while cur.number < number {
        cur = list_cursor::advance(s, cur);
    }
    list_cursor::record_at(s, cur)
}

// The record of a number; 14 if there is none.
#[tactic(auto, using(crate::proofs::RecordLaws::record_laws))]
pub fn record_by_number(s: &[u8], number: usize) -> Result<Record, Refusal>
    ensures { result ≡ record_of s.now number }
{
    let accepted = iff_tree::check(s)?;
    if number < accepted.chunks {
        return Ok(nth(s, number));
    }
    Err(Reason::NoRecord.at(0))
}
