// What stands at the left of a row that is packed by ByteRun1: three equal bytes and how many more, or how many bytes before such a
// start.
#![tactic(auto)]

ghost use Rattle.std.specs.Prelude.{◌≡◌, ◌==◌, ◌+◌, ◌-◌, ◌≤◌, ◌<◌, length, get_or, drop, take_while, eqb, true};
ghost use Rattle.byterun_pieces.specs.Pieces.{three, same_for, plain_for, piece_of};

// What stands at the left of a row: a repeat of so many bytes, or a literal of so many.
#[derive(Clone, Copy)]
pub enum Piece {
    Repeat(usize),
    Literal(usize),
}

// Whether the three bytes at i are equal.
fn three_here(row: &[u8], i: usize) -> bool
    requires { i + 3 ≤ length row.now }
    ensures { result ≡ three (drop i row.now) }
{
    if row[i] == row[i + 1] {
        return row[i + 1] == row[i + 2];
    }
    false
}

// Whether three equal bytes stand at i.
pub fn three_at(row: &[u8], i: usize) -> bool
    requires { i ≤ length row.now }
    ensures { result ≡ three (drop i row.now) }
{
    if row.len() - i < 3 {
        return false;
    }
    three_here(row, i)
}

// The lesser of a number and 128.
fn most(left: usize) -> usize
    ensures { (result ≤ 128) × (result ≤ left) × (left < 128 → result ≡ left) × (128 ≤ left → result ≡ 128) }
{
    if left < 128 {
        return left;
    }
    128
}

// How many bytes b stand at the left.
fn same_first(bytes: &[u8], b: u8) -> usize
    ensures { result ≡ length (take_while (λ x. x == b) bytes.now) }
{
    bytes.iter().take_while(|x| **x == b).count()
}

// How many bytes b stand at i, where three do, at most 128.
pub fn same_at(row: &[u8], i: usize, b: u8) -> usize
    requires { (i ≤ length row.now) × (three (drop i row.now) ≡ true) × (b ≡ get_or row.now i 0) }
    ensures { result ≡ same_for 128 b (drop i row.now) }
{
    let end = i + most(row.len() - i);
    same_first(&row[i..end], b)
}

// How many of 128 places have two more bytes after them, with so many bytes left.
fn starts(left: usize) -> usize
    ensures { (result ≤ 128) × (result ≤ left - 2) × (result < 128 → left - 2 ≤ result) }
{
    if left < 2 {
        return 0;
    }
    if left < 130 {
        return left - 2;
    }
    128
}

// Whether the two bytes at i are equal.
fn two_here(row: &[u8], i: usize) -> bool
    requires { i + 2 ≤ length row.now }
    ensures { result ≡ eqb (get_or row.now i 0) (get_or row.now (i + 1) 0) }
{
    row[i] == row[i + 1]
}

// How many bytes from i on stand before three equal ones, at most 128. Where the second of three bytes differs from the third, no
// three start at the first nor at the second.
pub fn plain_at(row: &[u8], i: usize) -> usize
    requires { i ≤ length row.now }
    ensures { result ≡ plain_for 128 (drop i row.now) }
{
    let left = row.len() - i;
    let last = starts(left);
    let mut n = 0;
    while n + 1 < last {
        if two_here(row, i + n + 1) {
            if three_here(row, i + n) {
                return n;
            }
            n += 1;
        } else {
            n += 2;
        }
    }
    if n < last {
        if three_here(row, i + n) {
            return n;
        }
        return most(left);
    }
    most(left)
}

// The piece that stands at i: a repeat where three equal bytes start, else a literal.
pub fn piece_at(row: &[u8], i: usize) -> Piece
    requires { i < length row.now }
    ensures { result ≡ piece_of (drop i row.now) }
{
    if three_at(row, i) {
        return Piece::Repeat(same_at(row, i, row[i]));
    }
    Piece::Literal(plain_at(row, i))
}
