// The table of a file's records, each asked for by its number: in time in proportion to the square of the number of chunks.
// `list_record_table::fill` does the same in one walk.
#![tactic(auto)]

ghost use Rattle.std.specs.Prelude.{◌≡◌, Ok, ◌<◌, length};
ghost use Rattle.iff_tree.specs.Judge.{read_file, check_of};
ghost use Rattle.list_spec.specs.Records.{record_of, count_of};
ghost use Rattle.list_capacity.specs.Capacity.{answer_of, records_in, records_for};
ghost use Rattle.list_record_table.specs.Rows.{placed};

use iff_refusal::Refusal;
use iff_tree::Accepted;
use list_by_number::record_by_number;
use list_spec::Record;

// The record of a number below the count. There is one, so the call is never refused.
#[tactic(auto, using(crate::proofs::BelowLaws::record_there))]
fn record_below(s: &[u8], number: usize) -> Record
    requires { number < count_of s.now }
    ensures { Ok result ≡ record_of s.now number }
{
    record_by_number(s, number).unwrap()
}

// Fills a table with the records of a file: the check's answer, or 13 if the table has fewer places than the file has chunks. Any
// refusal leaves the table as it was.
pub fn fill_by_number(s: &[u8], table: &mut [Record]) -> Result<Accepted, Refusal>
    ensures { (result ≡ answer_of (length table.old) (check_of s.now))
        × (table.new ≡ placed (records_for (length table.old) (read_file s.now)) table.old) }
{
    let v = list_capacity::answer(s, table.len());
    let n = list_capacity::to_put(v);
    for i in 0..n {
        table[i] = record_below(s, i);
    }
    v
}
