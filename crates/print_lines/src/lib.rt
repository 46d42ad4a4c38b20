// The lines of a listing that stand together, put into a buffer: those of a refusal, those before the records, those of a record.
#![tactic(auto)]

ghost use Rattle.std.specs.Prelude.{◌≤◌, length};
ghost use Rattle.print_line.specs.Text.{Begins, record_text, refusal_text, head_text};

use iff_name::{Kind, Name};

// answer
const ANSWER: u64 = 0x616E737765720000;

// place
const PLACE: u64 = 0x706C616365000000;

// chunks
const CHUNKS: u64 = 0x6368756E6B730000;

// end
const END: u64 = 0x656E640000000000;

// trailing
const TRAILING: u64 = 0x747261696C696E67;

// pictures
const PICTURES: u64 = 0x7069637475726573;

// chunk
const CHUNK: u64 = 0x6368756E6B000000;

// level
const LEVEL: u64 = 0x6C6576656C000000;

// at
const AT: u64 = 0x6174000000000000;

// size
const SIZE: u64 = 0x73697A6500000000;

// Puts the six lines of a record.
pub fn put_record(
    out: &mut [u8],
    number: usize,
    level: usize,
    kind: Kind,
    name: Name,
    place: usize,
    size: usize,
) -> usize
    requires { 200 ≤ length out.old }
    ensures begins { Begins out.new (record_text number level kind name.code place size) result }
    ensures upper_bound { result ≤ 200 }
{
    let a = print_line::put_two(out, 0, CHUNK, number, LEVEL, level);
    let b = print_line::put_kind(out, a, kind);
    let c = print_line::put_name(out, b, name);
    print_line::put_two(out, c, AT, place, SIZE, size)
}

// Puts the two lines that stand first, the answer and its place.
pub fn put_refusal(out: &mut [u8], answer: usize, place: usize) -> usize
    requires { 200 ≤ length out.old }
    ensures begins { Begins out.new (refusal_text answer place) result }
    ensures upper_bound { result ≤ 55 }
{
    print_line::put_two(out, 0, ANSWER, answer, PLACE, place)
}

// Puts the six lines that stand before the records.
pub fn put_head(
    out: &mut [u8],
    chunks: usize,
    end: usize,
    trailing: usize,
    pictures: usize,
) -> usize
    requires { 200 ≤ length out.old }
    ensures begins { Begins out.new (head_text chunks end trailing pictures) result }
    ensures upper_bound { result ≤ 200 }
{
    let a = put_refusal(out, 0, 0);
    let b = print_line::put_two(out, a, CHUNKS, chunks, END, end);
    print_line::put_two(out, b, TRAILING, trailing, PICTURES, pictures)
}
