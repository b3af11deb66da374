// The words of a first reply by kind, and what a reader keeps of the words so far.
ghost use Rattle.std.specs.Prelude.{◌≡◌};
ghost use Rattle.files.specs.Field.{door_root_of};
ghost use Rattle.files.specs.Reply.{is_door_word, is_door_of, is_row, is_reach};

use crate::field::{kind, node};

// What the words so far say of the next: the word before it, the least node of a next door (0: no door yet), the least
// state of a next row of this door, whether there was a root.
#[derive(Clone, Copy)]
pub struct ReplySeen {
    pub last: u32,
    pub low: u32,
    pub state: u32,
    pub rooted: bool,
}

pub fn is_door_word(w: u32) -> bool
    ensures { result ≡ is_door_word w }
{
    kind(w) == 8
}

// Whether a word is the door word of node x.
pub fn is_door_of(x: u32, w: u32) -> bool
    ensures { result ≡ is_door_of x w }
{
    is_door_word(w) & (node(w) == x)
}

pub fn is_row(w: u32) -> bool
    ensures { result ≡ is_row w }
{
    kind(w) == 9
}

pub fn is_reach(w: u32) -> bool
    ensures { result ≡ is_reach w }
{
    kind(w) == 10
}

// The root bit of a door word.
pub fn door_root(w: u32) -> bool
    ensures { result ≡ door_root_of w }
{
    w / 0x1_0000 % 2 == 1
}
