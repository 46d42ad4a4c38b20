// The table of a file's records, filled in file order: one lent column for each field of a record.
#![tactic(auto)]

ghost use Rattle.list_column_table.specs.Table.{room_of, Filled};

use iff_refusal::Refusal;
use iff_tree::Accepted;

// Fills a table with the records of a file: the check's answer, or 13 if the table has fewer places than the file has chunks. Any
// refusal leaves the table as it was.
pub fn fill_table(
    s: &[u8],
    numbers: &mut [usize],
    levels: &mut [usize],
    kinds: &mut [u8],
    names: &mut [u32],
    places: &mut [usize],
    sizes: &mut [usize],
) -> Result<Accepted, Refusal>
    ensures { Filled (room_of numbers.old levels.old kinds.old names.old places.old sizes.old)
        s.now result
        numbers.old levels.old kinds.old names.old places.old sizes.old
        numbers.new levels.new kinds.new names.new places.new sizes.new }
{
    let v = list_capacity::answer(
        s,
        list_columns::shortest(
            numbers.len(),
            levels.len(),
            kinds.len(),
            names.len(),
            places.len(),
            sizes.len(),
        ),
    );
    list_columns::put_records(
        s,
        list_capacity::to_put(v),
        numbers,
        levels,
        kinds,
        names,
        places,
        sizes,
    );
    v
}
