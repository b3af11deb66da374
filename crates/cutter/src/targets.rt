// The targets of the other sites' edges, as a set of nodes in the working buffer.
ghost use Rattle.std.specs.Prelude.{◌≡◌, ◌&&◌, ◌||◌, ℕ, ◌≤◌, length};
ghost use Rattle.sets.specs.Sets.{any};
ghost use Rattle.sets.specs.NodeSet.{has_node, node_set_bytes};
ghost use Rattle.files.specs.Word.{words};
ghost use Rattle.cutter.specs.Cut.{into, elsewhere};

use crate::place::{Place, pass};
use files::buffer::clear;
use files::field::target;
use files::part::is_node;
use files::word::Words;
use sets::node_set::add;

// Adds the target of an edge word of another site's node to the set.
fn mark_target(work: &mut [u8], other: bool, w: u32)
    requires { node_set_bytes ≤ length work.old }
    ensures { (x : ℕ) → has_node work.new 0 x ≡ (has_node work.old 0 x || (other && into x w)) }
{
    if other & !is_node(w) {
        add(work, 0, target(w));
    }
}

// Adds the targets of the other sites' edges to the set.
fn mark_targets(whole: &[u8], cuts: &[u8], site: u32, work: &mut [u8])
    requires { node_set_bytes ≤ length work.old }
    ensures { (x : ℕ) → has_node work.new 0 x
        ≡ (has_node work.old 0 x || any (into x) (elsewhere (words whole.now) cuts.now site)) }
{
    let mut place = Place {
        cut: 0,
        mine: false,
        other: false,
    };
    for w in Words::body(whole) {
        place = pass(cuts, site, place, w);
        mark_target(work, place.other, w);
    }
}

// The set of the targets of the other sites' edges.
pub fn collect_targets(whole: &[u8], cuts: &[u8], site: u32, work: &mut [u8])
    requires { node_set_bytes ≤ length work.old }
    ensures { (x : ℕ) → has_node work.new 0 x ≡ any (into x) (elsewhere (words whole.now) cuts.now site) }
{
    clear(work);
    mark_targets(whole, cuts, site, work);
}
