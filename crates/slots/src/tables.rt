// The bytes of the working buffer where the tables of a search begin, by the names of specs/Slots.antt. A mask stands at an edge word of the
// table that has pending states at node words; owners stand in the first table until states are reached.
pub const REACHED: usize = 0;

pub const PENDING: usize = 8192;

pub const SLOT: usize = 16384;

pub const PLACE: usize = 24576;

pub const OWNER: usize = REACHED;

pub const MASK: usize = PENDING;
