// The exported calls on one chunk of a file: numbers and byte slices, each call a few lines over a proved one.
// Each returns 0 or the number of a refusal; whatever else it tells is 0 beside a refusal, but its place.
#![tactic(auto)]

ghost use Rattle.std.specs.Prelude.{◌≡◌};
ghost use Rattle.std.proofs.Math.Seq.{slice};
ghost use Rattle.list_spec.specs.Records.{record_of};
ghost use Rattle.list_spec.specs.Contents.{extent_of, data_of};
ghost use Rattle.export_chunk.specs.Numbers.{record_numbers, extent_numbers};

use iff_name::kind_number;

// The record of a chunk by its number.
#[unsafe(no_mangle)]
pub extern "C" fn iff_record(
    file: &[u8],
    number: usize,
    place: &mut usize,
    level: &mut usize,
    kind: &mut usize,
    name: &mut u32,
    at: &mut usize,
    size: &mut usize,
) -> usize
    ensures { record {
      number = result;
      place = place.new;
      level = level.new;
      kind = kind.new;
      name = name.new;
      at = at.new;
      size = size.new;
    } ≡ record_numbers (record_of file.now number) }
{
    let v = list_by_number::record_by_number(file, number);
    match v {
        Ok(r) => {
            let k = r.kind;
            *place = 0;
            *level = r.level;
            *kind = kind_number(k);
            *name = r.name.code;
            *at = r.place;
            *size = r.size;
            0
        }
        Err(r) => {
            *place = r.place;
            *level = 0;
            *kind = 0;
            *name = 0;
            *at = 0;
            *size = 0;
            r.reason.number()
        }
    }
}

// Where the data of a local or filler chunk lies in the file.
#[unsafe(no_mangle)]
pub extern "C" fn iff_data(
    file: &[u8],
    number: usize,
    place: &mut usize,
    from: &mut usize,
    to: &mut usize,
) -> usize
    ensures answer { record { number = result; place = place.new; from = from.new; to = to.new }
        ≡ extent_numbers (extent_of file.now number) }
    ensures part { slice from.new to.new file.now ≡ data_of file.now number }
{
    match list_data::data_extent(file, number) {
        Ok(x) => {
            *place = 0;
            *from = x.from;
            *to = x.to;
            0
        }
        Err(r) => {
            *place = r.place;
            *from = 0;
            *to = 0;
            r.reason.number()
        }
    }
}
