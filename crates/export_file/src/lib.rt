// The exported calls on a file as a whole: numbers and byte slices, each call a few lines over a proved one.
// Each returns 0 or the number of a refusal; whatever else it tells is 0 beside a refusal, but its place.
#![tactic(auto)]

ghost use Rattle.std.specs.Prelude.{◌≡◌, length};
ghost use Rattle.iff_tree.specs.Judge.{check_of};
ghost use Rattle.iff_copy.specs.Clean.{copy_of, copied_into};
ghost use Rattle.ilbm_count.specs.Count.{count_of};
ghost use Rattle.export_file.specs.Numbers.{check_numbers};
ghost use Rattle.export_numbers.specs.Numbers.{value_numbers};

use export_numbers::tell;

// Judges a file: chunks, end of the outermost chunk, bytes after it.
#[unsafe(no_mangle)]
pub extern "C" fn iff_check(
    file: &[u8],
    place: &mut usize,
    chunks: &mut usize,
    end: &mut usize,
    trailing: &mut usize,
) -> usize
    ensures { record { number = result; place = place.new; chunks = chunks.new; end = end.new; trailing = trailing.new }
        ≡ check_numbers (check_of file.now) }
{
    let v = iff_tree::check(file);
    match v {
        Ok(a) => {
            *place = 0;
            *chunks = a.chunks;
            *end = a.end;
            *trailing = a.trailing;
            0
        }
        Err(r) => {
            *place = r.place;
            *chunks = 0;
            *end = 0;
            *trailing = 0;
            r.reason.number()
        }
    }
}

// The clean copy of a file, into `out`.
#[unsafe(no_mangle)]
pub extern "C" fn iff_clean_copy(
    file: &[u8],
    out: &mut [u8],
    place: &mut usize,
    written: &mut usize,
) -> usize
    ensures answer { record { number = result; place = place.new; value = written.new }
        ≡ value_numbers (copy_of file.now (length out.old)) }
    ensures copied { out.new ≡ copied_into file.now out.old }
{
    tell(iff_copy::clean_copy(file, out), place, written)
}

// How many pictures a file has.
#[unsafe(no_mangle)]
pub extern "C" fn iff_count_pictures(file: &[u8], place: &mut usize, pictures: &mut usize) -> usize
    ensures { record { number = result; place = place.new; value = pictures.new } ≡ value_numbers (count_of file.now) }
{
    tell(ilbm_count::count_pictures(file), place, pictures)
}
