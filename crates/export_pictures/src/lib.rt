// The exported call that fills the table of a file's pictures: 0 or the number of a refusal, and 0 for what else is told but its place.
#![tactic(auto)]

ghost use Rattle.std.specs.Prelude.{◌≡◌, length};
ghost use Rattle.ilbm_spec.specs.Table.{table_of, table_answer, table_after};
ghost use Rattle.export_numbers.specs.Numbers.{value_numbers};

use export_numbers::tell;

// Fills the table with all pictures of the file, 30 numbers to a picture.
#[unsafe(no_mangle)]
pub extern "C" fn ilbm_pictures(
    file: &[u8],
    table: &mut [usize],
    place: &mut usize,
    pictures: &mut usize,
) -> usize
    ensures answer { record { number = result; place = place.new; value = pictures.new }
        ≡ value_numbers (table_answer (table_of file.now (length table.old))) }
    ensures numbers { table.new
        ≡ table_after (table_of file.now (length table.old)) table.old }
{
    tell(ilbm_table::fill_table(file, table), place, pictures)
}
