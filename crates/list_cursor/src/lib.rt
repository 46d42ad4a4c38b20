// A cursor that goes through the chunks of an accepted file in file order.
#![tactic(auto)]

ghost use Rattle.std.specs.Prelude.{◌≡◌, Ok, ◌+◌, ◌≤◌, ◌<◌};
ghost use Rattle.list_spec.specs.Records.{count_of, record_of};
ghost use Rattle.list_cursor.specs.Cursors.{first_cursor, record_at, open_level, entered, passed, onward_at, Enterable, Passable, Lies, Located};

use list_spec::Record;

// A place in an accepted file: the next chunk's place, number and level, and where each group around it ends, the outermost first.
#[derive(Clone, Copy)]
pub struct Cursor {
    pub place: usize,
    pub number: usize,
    pub level: usize,
    pub ends: [usize; 16],
}

// The cursor at the outermost chunk.
pub fn first() -> Cursor
    ensures { result ≡ first_cursor }
{
    Cursor {
        place: 0,
        number: 0,
        level: 1,
        ends: [0usize; 16],
    }
}

// The level at a place, after the groups that end there are closed.
fn open_level(ends: &[usize; 16], place: usize, level: usize) -> usize
    requires { level ≤ 17 }
    ensures { result ≡ open_level ends.now place level }
{
    let mut l = level;
    while 1 < l {
        if ends[l - 2] != place {
            return l;
        }
        l = l - 1;
    }
    l
}

// The record that the header at the cursor gives.
pub fn header_at(s: &[u8], cur: Cursor) -> Record
    requires { Lies s.now cur }
    ensures { result ≡ record_at s.now cur.level cur.number cur.place }
{
    let p = cur.place;
    let n = iff_chunk::name_at(s, p);
    let size = iff_chunk::size_at(s, p + 4);
    let kind = n.kind();
    if iff_rules::is_group(kind) {
        return Record {
            number: cur.number,
            level: cur.level,
            kind,
            name: iff_chunk::name_at(s, p + 8),
            place: p,
            size,
        };
    }
    Record {
        number: cur.number,
        level: cur.level,
        kind,
        name: n,
        place: p,
        size,
    }
}

// The record of the chunk at the cursor.
pub fn record_at(s: &[u8], cur: Cursor) -> Record
    requires { (Located s.now cur) × (cur.number < count_of s.now) }
    ensures { Ok result ≡ record_of s.now cur.number }
{
    header_at(s, cur)
}

// The cursor at the first member of the group at it, whose size is z, or behind the group.
fn enter(cur: Cursor, z: usize) -> Cursor
    requires { Enterable cur z }
    ensures { result ≡ entered cur z }
{
    let place = cur.place;
    let level = cur.level;
    let mut ends = cur.ends;
    ends[level - 1] = place + 8 + z;
    let next = place + 12;
    let open = open_level(&ends, next, level + 1);
    Cursor {
        place: next,
        number: cur.number + 1,
        level: open,
        ends,
    }
}

// The cursor behind the chunk at it, which is no group and has z bytes of data.
fn pass(cur: Cursor, z: usize) -> Cursor
    requires { Passable cur z }
    ensures { result ≡ passed cur z }
{
    let ends = cur.ends;
    let next = cur.place + 8 + (z + 1) / 2 * 2;
    let open = open_level(&ends, next, cur.level);
    Cursor {
        place: next,
        number: cur.number + 1,
        level: open,
        ends,
    }
}

// Where the cursor goes from the chunk at it: to a group's first member, or behind the chunk.
pub fn onward(s: &[u8], cur: Cursor) -> Cursor
    requires { Lies s.now cur }
    ensures { result ≡ onward_at s.now cur }
{
    let p = cur.place;
    let n = iff_chunk::name_at(s, p);
    let z = iff_chunk::size_at(s, p + 4);
    if iff_rules::is_group(n.kind()) {
        return enter(cur, z);
    }
    pass(cur, z)
}

// The cursor at the next chunk.
pub fn advance(s: &[u8], cur: Cursor) -> Cursor
    requires { (Located s.now cur) × (cur.number < count_of s.now) }
    ensures { (Located s.now result) × (result.number ≡ cur.number + 1) }
{
    onward(s, cur)
}
