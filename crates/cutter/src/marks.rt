// The site's words, each node's with its door bit by a set of nodes.
ghost use Rattle.std.specs.Prelude.{◌≡◌, map, ◌*◌, ◌≤◌, length};
ghost use Rattle.sets.specs.NodeSet.{has_node, node_set_bytes};
ghost use Rattle.files.specs.Word.{words};
ghost use Rattle.files.specs.Limits.{part_words};
ghost use Rattle.output.specs.Writer.{Writes};
ghost use Rattle.cutter.specs.Cut.{marked, mine};

use crate::place::{Place, pass};
use files::field::{node, root, stopped};
use files::limits::PART_WORDS;
use files::make::node_word;
use files::part::is_node;
use files::word::Words;
use output::writer::push;
use sets::node_set::has;

// A node's word with the door bit by the set and its other bits, an edge word as it is.
fn mark(doors: &[u8], w: u32) -> u32
    requires { node_set_bytes ≤ length doors.now }
    ensures { result ≡ marked (has_node doors.now 0) w }
{
    if is_node(w) {
        let x = node(w);
        return node_word(x, root(w) | has(doors, 0, x), root(w), stopped(w));
    }
    w
}

// Writes the site's words behind `count` others; hands back how many there are then.
pub fn write_words(
    whole: &[u8],
    cuts: &[u8],
    site: u32,
    doors: &[u8],
    out: &mut [u8],
    count: usize,
) -> usize
    requires { (node_set_bytes ≤ length doors.now) × (4 * part_words ≤ length out.old) }
    ensures { Writes part_words (length out.old) out.old count out.new result
        (map (marked (has_node doors.now 0)) (mine (words whole.now) cuts.now site)) }
{
    let mut n = count;
    let mut place = Place {
        cut: 0,
        mine: false,
        other: false,
    };
    for w in Words::body(whole) {
        place = pass(cuts, site, place, w);
        if place.mine {
            n = push(out, PART_WORDS, n, mark(doors, w));
        }
    }
    n
}
