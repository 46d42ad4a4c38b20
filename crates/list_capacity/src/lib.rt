// The answer for a file and a lent table of so many places, and how many records are put into it.
#![tactic(auto)]

ghost use Rattle.std.specs.Prelude.{◌≡◌};
ghost use Rattle.iff_tree.specs.Judge.{check_of};
ghost use Rattle.list_capacity.specs.Capacity.{answer_of, to_put, Ready};

use iff_refusal::{Reason, Refusal};
use iff_tree::Accepted;

// The answer for a table of m places: the check's, or 13 if the file has more chunks.
#[tactic(auto, using(crate::proofs::RoomLaws::accepted_ready))]
pub fn answer(s: &[u8], m: usize) -> Result<Accepted, Refusal>
    ensures { (result ≡ answer_of m (check_of s.now)) × (Ready s.now (to_put result)) }
{
    let accepted = iff_tree::check(s)?;
    if m < accepted.chunks {
        return Err(Reason::TableTooShort.at(0));
    }
    Ok(accepted)
}

// How many records an answer puts into the table.
pub fn to_put(v: Result<Accepted, Refusal>) -> usize
    ensures { result ≡ to_put v }
{
    match v {
        Ok(accepted) => accepted.chunks,
        Err(_) => 0,
    }
}
