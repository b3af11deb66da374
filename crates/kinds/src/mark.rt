// The nodes of the words of one kind, as a set in lent bytes.
ghost use Rattle.std.specs.Prelude.{◌≡◌, ◌&&◌, ◌||◌, map, ℕ, ◌≤◌, eqb, length};
ghost use Rattle.sets.specs.Sets.{member, filter};
ghost use Rattle.sets.specs.NodeSet.{has_node, node_set_bytes};
ghost use Rattle.files.specs.Word.{words};
ghost use Rattle.files.specs.Field.{kind_of, node_of};

use files::field::{kind, node};
use files::word::Words;
use sets::node_set::add;

// Adds a word's node to the set, if the word is of kind k.
fn mark_word(work: &mut [u8], k: u32, w: u32)
    requires { node_set_bytes ≤ length work.old }
    ensures { (x : ℕ) → has_node work.new 0 x ≡ (has_node work.old 0 x || (eqb (kind_of w) k && eqb x (node_of w))) }
{
    if kind(w) == k {
        add(work, 0, node(w));
    }
}

// Adds the node of every word of kind k to the set.
pub fn mark_kind(bytes: &[u8], work: &mut [u8], k: u32)
    requires { node_set_bytes ≤ length work.old }
    ensures { (x : ℕ) → has_node work.new 0 x
        ≡ (has_node work.old 0 x || member x (map node_of (filter (λ w. eqb (kind_of w) k) (words bytes.now)))) }
{
    for w in Words::of(bytes) {
        mark_word(work, k, w);
    }
}
