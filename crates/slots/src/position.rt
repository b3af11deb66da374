// The words of a part by position, the header's being 0.
ghost use Rattle.std.specs.Prelude.{◌≡◌};
ghost use Rattle.files.specs.Word.{words};
ghost use Rattle.slots.specs.Slots.{node_at, edge_at, stopped_at, number};

use files::field::{kind, node};
use files::part::is_stopped as stops;
use files::word::word_at;

// Whether a node word stands at position i.
pub fn is_node(part: &[u8], i: usize) -> bool
    ensures { result ≡ node_at (words part.now) i }
{
    kind(word_at(part, i)) == 2
}

pub fn is_edge(part: &[u8], i: usize) -> bool
    ensures { result ≡ edge_at (words part.now) i }
{
    kind(word_at(part, i)) == 3
}

// Whether the word at position i is that of a stopped node.
pub fn is_stopped(part: &[u8], i: usize) -> bool
    ensures { result ≡ stopped_at (words part.now) i }
{
    stops(word_at(part, i))
}

// The number of the node word at position i, or the target of the edge word there.
pub fn number_at(part: &[u8], i: usize) -> u32
    ensures { result ≡ number (words part.now) i }
{
    node(word_at(part, i))
}
