// Reading a file to its end, for the program that measures it (compare/run_listing.sh).
#![tactic(auto)]

ghost use Rattle.std.specs.Prelude.{◌≡◌};
ghost use Rattle.list_spec.specs.Records.{count_of};

// How many records a reader of the file gives before the end.
#[unsafe(no_mangle)]
pub extern "C" fn listing_read(file: &[u8]) -> usize
    ensures { result ≡ count_of file.now }
{
    list_reader::count_by_reading(file)
}
