// Where the tables of specs/Tables.antt stand: the entries of an edge word's row, and the bytes of the output where lists begin. The table of node
// words is that of slots.
pub const TARGET: usize = 0;

pub const MASK: usize = 1;

pub const NEXT: usize = 2;

pub const HEADS: usize = 2048;

pub const FIRST: usize = 4096;

pub const SECOND: usize = 6144;
