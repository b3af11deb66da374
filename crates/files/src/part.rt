// The words of a part by kind, and what a reader keeps of the words so far.
ghost use Rattle.std.specs.Prelude.{◌≡◌};
ghost use Rattle.files.specs.Part.{is_node, is_edge, is_root, is_door, is_stopped};

use crate::field::{door, kind, root, stopped};

// What the words so far say of the next: the word before it, the least number of a next node (0: no node yet), whether
// there was a root.
#[derive(Clone, Copy)]
pub struct PartSeen {
    pub last: u32,
    pub low: u32,
    pub rooted: bool,
}

pub fn is_node(w: u32) -> bool
    ensures { result ≡ is_node w }
{
    kind(w) == 2
}

pub fn is_edge(w: u32) -> bool
    ensures { result ≡ is_edge w }
{
    kind(w) == 3
}

pub fn is_root(w: u32) -> bool
    ensures { result ≡ is_root w }
{
    is_node(w) & root(w)
}

pub fn is_door(w: u32) -> bool
    ensures { result ≡ is_door w }
{
    is_node(w) & door(w)
}

pub fn is_stopped(w: u32) -> bool
    ensures { result ≡ is_stopped w }
{
    is_node(w) & stopped(w)
}
