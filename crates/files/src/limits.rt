// Limits: of files, in words with the header; of the operands that wait in a path; of the working buffer, in bytes; and how many label groups
// there are.

// A part, and so a whole.
pub const PART_WORDS: usize = 4096;

pub const PATH_WORDS: usize = 64;

// The most operands that may wait after any word of a path.
pub const MOST_WAITING: usize = 8;

pub const GROUP_COUNT: usize = 8;

// A first reply, a call list, a second reply.
pub const REPLY_WORDS: usize = 4096;

pub const BUNDLE_WORDS: usize = 8192;

pub const FINAL_WORDS: usize = 8192;

// The triples of a plant of the first release.
pub const TRIPLE_WORDS: usize = 12286;

// A whole that is asked for walks, and a walk.
pub const SHOWN_WORDS: usize = 1024;

pub const WALK_WORDS: usize = 4096;

pub const WORK_BYTES: usize = 32768;
