// The exported call that lists a whole file: the table of its records, one lent column for each field, filled in one walk.
// It returns 0 or the number of a refusal; the count is 0 beside a refusal, and no column is changed then.
#![tactic(auto)]

ghost use Rattle.std.specs.Prelude.{◌≡◌};
ghost use Rattle.iff_tree.specs.Judge.{check_of};
ghost use Rattle.list_capacity.specs.Capacity.{answer_of};
ghost use Rattle.list_column_table.specs.Table.{room_of, Filled};
ghost use Rattle.export_table.specs.Numbers.{records_numbers};

use export_numbers::tell;
use list_column_table::fill_table;

// The records of all chunks of a file, in file order.
#[unsafe(no_mangle)]
pub extern "C" fn iff_records(
    file: &[u8],
    numbers: &mut [usize],
    levels: &mut [usize],
    kinds: &mut [u8],
    names: &mut [u32],
    places: &mut [usize],
    sizes: &mut [usize],
    place: &mut usize,
    chunks: &mut usize,
) -> usize
    ensures answer { record { number = result; place = place.new; value = chunks.new }
        ≡ records_numbers (answer_of (room_of numbers.old levels.old kinds.old names.old places.old sizes.old) (check_of file.now)) }
    ensures filled { Filled (room_of numbers.old levels.old kinds.old names.old places.old sizes.old)
        file.now
        (answer_of (room_of numbers.old levels.old kinds.old names.old places.old sizes.old) (check_of file.now))
        numbers.old levels.old kinds.old names.old places.old sizes.old
        numbers.new levels.new kinds.new names.new places.new sizes.new }
{
    let filled = fill_table(file, numbers, levels, kinds, names, places, sizes);
    tell(filled.map(|a| a.chunks), place, chunks)
}
