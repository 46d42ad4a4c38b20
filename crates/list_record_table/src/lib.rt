// The table of a file's records as one lent slice of them, filled in file order.
#![tactic(auto)]

ghost use Rattle.std.specs.Prelude.{◌≡◌, ◌≤◌, length, take};
ghost use Rattle.iff_tree.specs.Judge.{read_file, check_of};
ghost use Rattle.list_capacity.specs.Capacity.{answer_of, records_in, records_for, Ready};
ghost use Rattle.list_record_table.specs.Rows.{placed};

use iff_refusal::Refusal;
use iff_tree::Accepted;
use list_spec::Record;

// Puts the first n records of a file into a table that has a place for each.
fn put_records(s: &[u8], table: &mut [Record], n: usize)
    requires { (Ready s.now n) × (n ≤ length table.old) }
    ensures { table.new ≡ placed (take n (records_in (read_file s.now))) table.old }
{
    let mut cur = list_cursor::first();
    for i in 0..n {
        table[i] = list_cursor::record_at(s, cur);
        cur = list_cursor::advance(s, cur);
    }
}

// Fills a table with the records of a file: the check's answer, or 13 if the table has fewer places than the file has chunks. Any
// refusal leaves the table as it was.
pub fn fill(s: &[u8], table: &mut [Record]) -> Result<Accepted, Refusal>
    ensures { (result ≡ answer_of (length table.old) (check_of s.now))
        × (table.new ≡ placed (records_for (length table.old) (read_file s.now)) table.old) }
{
    let v = list_capacity::answer(s, table.len());
    put_records(s, table, list_capacity::to_put(v));
    v
}
