// Files of 32-bit little-endian words: words one by one and one after another, their fields, refusals by name and by number, the one scan of files
// that are read word by word, the checks that every file shares, and what a call leaves.
#![tactic(auto)]

pub mod buffer;
pub mod cursor;
pub mod expr;
pub mod field;
pub mod limits;
pub mod make;
pub mod numbered;
pub mod part;
pub mod refusal;
pub mod refuse;
pub mod reply;
pub mod scan;
pub mod word;
