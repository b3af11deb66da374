// The rows behind a door followed: their pairs are entered, up to the first that names no door.
ghost use Rattle.std.specs.Prelude.{◌<◌, length, suc, drop, MatchOption};
ghost use Rattle.files.specs.Word.{words};
ghost use Rattle.door_index.specs.Index.{Indexed};
ghost use Rattle.hub_search.specs.Search.{Roomy, Waiting, InRows, Stray, Followed};

use crate::enter::enter;
use door_index::index::{COUNTS, INDEX};
use files::field::state;
use files::reply::is_door_of;
use files::word::word_at;
use row_scan::rows::{Rows, in_rows, is_followed, reach_node, turn};
use sets::table::get16;

// Follows the rows of the states of s behind the door at i: enters the pairs of their reach words, each at its door, which is looked for from
// where the index has those of its sixteen nodes. Gives the stack's height, or none at a stray: at the first reach word whose node is no door the
// scan stops, out of both loops. Each loop has one place more than there are words or doors: there the rows end, and there the node is no door.
pub fn follow_rows(
    bundle: &[u8],
    counts: &[u8],
    work: &mut [u8],
    doors: usize,
    i: usize,
    s: u16,
    height: usize,
) -> Option<usize>
    requires indexed { Indexed (words bundle.now) counts.now work.old doors × Roomy (words bundle.now) doors work.old × (i < length (words bundle.now)) }
    requires waiting { Waiting (words bundle.now) doors work.old height }
    ensures { MatchOption result (Stray (words bundle.now) (InRows s (drop (suc i) (words bundle.now))))
        (λ top. Followed (words bundle.now) doors i s work.old work.new top) }
{
    let mut rows = Rows { left: s, on: false };
    let mut top = height;
    'words: for k in i + 1..=bundle.len() / 4 {
        let w = word_at(bundle, k);
        if !in_rows(w) {
            return Some(top);
        }
        rows = turn(rows, w);
        if is_followed(rows, w) {
            let x = reach_node(w);
            let start = get16(counts, COUNTS, (x / 16) as usize) as usize;
            for at in start..doors + 1 {
                if at == doors {
                    break 'words;
                }
                let j = get16(work, INDEX, at) as usize;
                if is_door_of(x, word_at(bundle, j)) {
                    top = enter(bundle, work, doors, j, state(w), top);
                    break;
                }
            }
        }
    }
    None
}
