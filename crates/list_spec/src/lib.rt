// What a listing tells: the record of a chunk, and where a chunk's data lies. The definitions are in specs/.
#![tactic(auto)]

use iff_name::{Kind, Name};

// One chunk of a file. A group is told by its type, any other chunk by its name; the size leaves out the pad.
#[derive(Clone, Copy)]
pub struct Record {
    pub number: usize,
    pub level: usize,
    pub kind: Kind,
    pub name: Name,
    pub place: usize,
    pub size: usize,
}

// Where a chunk's data lies in the file.
#[derive(Clone, Copy)]
pub struct Extent {
    pub from: usize,
    pub to: usize,
}
