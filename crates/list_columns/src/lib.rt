// The columns of a lent table of records, one for each field of a record, filled in file order.
#![tactic(auto)]

ghost use Rattle.std.specs.Prelude.{◌≡◌, ◌≤◌, ◌<◌, min, length, set, take};
ghost use Rattle.iff_tree.specs.Judge.{read_file};
ghost use Rattle.list_capacity.specs.Capacity.{records_in, Ready};
ghost use Rattle.list_columns.specs.Columns.{
  record_number,
  level_of,
  kind_number_of,
  name_of,
  record_place,
  size_of,
  column,
};

use list_spec::Record;

// The length of the shortest of six columns.
pub fn shortest(
    numbers: usize,
    levels: usize,
    kinds: usize,
    names: usize,
    places: usize,
    sizes: usize,
) -> usize
    ensures { result ≡ min (min (min numbers levels) (min kinds names)) (min places sizes) }
{
    numbers
        .min(levels)
        .min(kinds.min(names))
        .min(places.min(sizes))
}

// Puts a record at place i of a table.
fn put_record(
    numbers: &mut [usize],
    levels: &mut [usize],
    kinds: &mut [u8],
    names: &mut [u32],
    places: &mut [usize],
    sizes: &mut [usize],
    i: usize,
    r: Record,
)
    requires { (i < length numbers.old)
        × (i < length levels.old)
        × (i < length kinds.old)
        × (i < length names.old)
        × (i < length places.old)
        × (i < length sizes.old) }
    ensures { (numbers.new ≡ set numbers.old i (record_number r))
        × (levels.new ≡ set levels.old i (level_of r))
        × (kinds.new ≡ set kinds.old i (kind_number_of r))
        × (names.new ≡ set names.old i (name_of r))
        × (places.new ≡ set places.old i (record_place r))
        × (sizes.new ≡ set sizes.old i (size_of r)) }
{
    let kind = r.kind;
    numbers[i] = r.number;
    levels[i] = r.level;
    kinds[i] = iff_name::kind_number(kind) as u8;
    names[i] = r.name.code;
    places[i] = r.place;
    sizes[i] = r.size;
}

// Puts the first n records of a file into a table that has a place for each.
pub fn put_records(
    s: &[u8],
    n: usize,
    numbers: &mut [usize],
    levels: &mut [usize],
    kinds: &mut [u8],
    names: &mut [u32],
    places: &mut [usize],
    sizes: &mut [usize],
)
    requires ready { Ready s.now n }
    requires n_in_bounds { (n ≤ length numbers.old)
        × (n ≤ length levels.old)
        × (n ≤ length kinds.old)
        × (n ≤ length names.old)
        × (n ≤ length places.old)
        × (n ≤ length sizes.old) }
    ensures { (numbers.new ≡ column record_number (take n (records_in (read_file s.now))) numbers.old)
        × (levels.new ≡ column level_of (take n (records_in (read_file s.now))) levels.old)
        × (kinds.new ≡ column kind_number_of (take n (records_in (read_file s.now))) kinds.old)
        × (names.new ≡ column name_of (take n (records_in (read_file s.now))) names.old)
        × (places.new ≡ column record_place (take n (records_in (read_file s.now))) places.old)
        × (sizes.new ≡ column size_of (take n (records_in (read_file s.now))) sizes.old) }
{
    let mut cur = list_cursor::first();
    for i in 0..n {
        let r = list_cursor::record_at(s, cur);
        put_record(numbers, levels, kinds, names, places, sizes, i, r);
        cur = list_cursor::advance(s, cur);
    }
}
