// The functions that take any cursor, also one that no walk of the file has led there.
#![tactic(auto)]

ghost use Rattle.std.specs.Prelude.{◌≡◌, ◌≤◌, ◌<◌};
ghost use Rattle.list_checked_cursor.specs.Checked.{group_lies, plain_lies, lies_at, read_at, moved_at};

use iff_refusal::{Reason, Refusal};
use list_cursor::Cursor;
use list_spec::Record;

// Whether a group of level l and size z at p lies in a file of n bytes, at a level that a group can have.
fn group_lies(n: usize, p: usize, l: usize, z: usize) -> bool
    requires { (n ≤ 16777216) × (p ≤ n) × (z < 4294967296) }
    ensures { result ≡ group_lies n p l z }
{
    if n < p + 12 {
        return false;
    }
    if n < p + 8 + z {
        return false;
    }
    if l < 1 {
        return false;
    }
    if 16 < l {
        return false;
    }
    true
}

// Whether a chunk of level l with z bytes of data at p lies in a file of n bytes, at a level that a chunk can have.
fn plain_lies(n: usize, p: usize, l: usize, z: usize) -> bool
    requires { (n ≤ 16777216) × (p ≤ n) × (z < 4294967296) }
    ensures { result ≡ plain_lies n p l z }
{
    if n < p + 8 + (z + 1) / 2 * 2 {
        return false;
    }
    if 17 < l {
        return false;
    }
    true
}

// Whether a chunk lies at a cursor, which may be any: its header, its data or its type, and the level are tested.
pub fn lies_at(s: &[u8], cur: Cursor) -> bool
    ensures { result ≡ lies_at s.now cur }
{
    let n = s.len();
    let p = cur.place;
    if 16777216 < n {
        return false;
    }
    if p < cur.number {
        return false;
    }
    if n < p {
        return false;
    }
    if n < p + 8 {
        return false;
    }
    let c = iff_chunk::name_at(s, p);
    let z = iff_chunk::size_at(s, p + 4);
    if iff_rules::is_group(c.kind()) {
        return group_lies(n, p, cur.level, z);
    }
    plain_lies(n, p, cur.level, z)
}

// The record that the header at a cursor gives, which may be any; 14 where no chunk lies.
pub fn read_at(s: &[u8], cur: Cursor) -> Result<Record, Refusal>
    ensures { result ≡ read_at s.now cur }
{
    if lies_at(s, cur) {
        return Ok(list_cursor::header_at(s, cur));
    }
    Err(Reason::NoRecord.at(0))
}

// The cursor at the next chunk, from any cursor; the same cursor where no chunk lies.
pub fn moved(s: &[u8], cur: Cursor) -> Cursor
    ensures { result ≡ moved_at s.now cur }
{
    if lies_at(s, cur) {
        return list_cursor::onward(s, cur);
    }
    cur
}
