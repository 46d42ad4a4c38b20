// The lines of a listing, put into a buffer: a label, then a number in decimal digits, a kind or a name.
#![tactic(auto)]

ghost use Rattle.std.specs.Prelude.{◌≡◌, [], ◌∷◌, ◌++◌, ◌+◌, ◌≤◌, length};
ghost use Rattle.print_line.specs.Text.{Puts, number_line, kind_line, name_line};
ghost use Rattle.print_line.specs.Words.{letters, label_of, kind_word};

use iff_name::{Kind, Name};

// kind
const KIND: u64 = 0x6B696E6400000000;

// name
const NAME: u64 = 0x6E616D6500000000;

// Puts bytes and a last byte behind the first `at` bytes of a text, and gives the text's length.
fn put_bytes(out: &mut [u8], at: usize, bytes: &[u8], last: u8) -> usize
    requires { at + length bytes.now + 1 ≤ length out.old }
    ensures { Puts out.old at (bytes.now ++ (last ∷ [])) out.new result }
{
    let end = at + bytes.len();
    out[at..end].copy_from_slice(bytes);
    out[end] = last;
    end + 1
}

// Puts the letters of a word and a last byte.
// A word is a number of eight bytes, and its letters are those before the zeros at its end.
fn put_word(out: &mut [u8], at: usize, word: u64, last: u8) -> usize
    requires { at + length (letters word) + 1 ≤ length out.old }
    ensures { Puts out.old at (letters word ++ (last ∷ [])) out.new result }
{
    let n = 8 - word.trailing_zeros() as usize / 8;
    put_bytes(out, at, &word.to_be_bytes()[..n], last)
}

// Puts a line with a number: the label, '=', the number's decimal digits, LF.
fn put_number(out: &mut [u8], at: usize, label: u64, n: usize) -> usize
    requires { at + length (label_of label) + 21 ≤ length out.old }
    ensures puts { Puts out.old at (number_line (label_of label) n) out.new result }
    ensures upper_bound { result ≤ at + length (label_of label) + 21 }
{
    let mut digits = [0u8; 20];
    let k = io::decimal(n as u64, &mut digits);
    let a = put_word(out, at, label, b'=');
    put_bytes(out, a, &digits[..k], b'\n')
}

// Puts two lines with numbers.
pub fn put_two(out: &mut [u8], at: usize, label: u64, n: usize, other: u64, m: usize) -> usize
    requires { at + length (label_of label) + length (label_of other) + 42 ≤ length out.old }
    ensures puts { Puts out.old at (number_line (label_of label) n ++ number_line (label_of other) m) out.new result }
    ensures upper_bound { result ≤ at + length (label_of label) + length (label_of other) + 42 }
{
    let a = put_number(out, at, label, n);
    put_number(out, a, other, m)
}

// The kind of a chunk as a word.
fn kind_word(kind: Kind) -> u64
    ensures { result ≡ kind_word kind }
{
    match kind {
        Kind::FORM => 0x464F524D00000000,
        Kind::LIST => 0x4C49535400000000,
        Kind::CAT => 0x4341540000000000,
        Kind::PROP => 0x50524F5000000000,
        Kind::FILLER => 0x46494C4C45520000,
        Kind::LOCAL => 0x4C4F43414C000000,
    }
}

// Puts the line with a chunk's kind.
pub fn put_kind(out: &mut [u8], at: usize, kind: Kind) -> usize
    requires { at + 12 ≤ length out.old }
    ensures puts { Puts out.old at (kind_line kind) out.new result }
    ensures upper_bound { result ≤ at + 12 }
{
    let a = put_word(out, at, KIND, b'=');
    put_word(out, a, kind_word(kind), b'\n')
}

// Puts the line with a chunk's name, or a group's type: its four bytes.
pub fn put_name(out: &mut [u8], at: usize, name: Name) -> usize
    requires { at + 10 ≤ length out.old }
    ensures puts { Puts out.old at (name_line name.code) out.new result }
    ensures upper_bound { result ≤ at + 10 }
{
    let a = put_word(out, at, NAME, b'=');
    put_bytes(out, a, &name.code.to_be_bytes(), b'\n')
}
