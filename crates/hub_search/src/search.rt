// The search for the called pairs: from the root's, the rows of pending states are followed until none is left, or until a pair names no door.
ghost use Rattle.std.specs.Prelude.{◌≡◌, ℕ, ◌<◌, length};
ghost use Rattle.sets.specs.Table.{half};
ghost use Rattle.files.specs.Reply.{roots};
ghost use Rattle.files.specs.Word.{words};
ghost use Rattle.files.specs.Limits.{bundle_words};
ghost use Rattle.door_index.specs.Index.{DoorsOnce, Indexed};
ghost use Rattle.hub_search.specs.Search.{Roomy, Waiting, PairsEntered, Placed, IsRoot, Searched};

use crate::enter::enter;
use crate::follow::follow_rows;
use door_index::index::INDEX;
use kinds::count::Mark;
use kinds::find::find_kind;
use sets::table::{get16, put16};

// Enters the root's pair. Gives the stack's height.
fn seed(bundle: &[u8], work: &mut [u8], doors: usize) -> usize
    requires roomy { Roomy (words bundle.now) doors work.old × Waiting (words bundle.now) doors work.old 0 }
    requires doors_once { DoorsOnce (words bundle.now) × (length (roots (words bundle.now)) ≡ 1) }
    ensures pairs_entered { PairsEntered (words bundle.now) doors (Placed (words bundle.now) (IsRoot (words bundle.now))) work.old work.new }
    ensures waiting { Waiting (words bundle.now) doors work.new result }
{
    let k = find_kind(bundle, 8, Mark::Bit16);
    enter(bundle, work, doors, k, 0, 0)
}

// Searches the called pairs, over an index of the doors and a table that is zero. Gives whether one of them names no door.
pub fn search(bundle: &[u8], counts: &[u8], work: &mut [u8], doors: usize) -> bool
    requires indexed { Indexed (words bundle.now) counts.now work.old doors × Roomy (words bundle.now) doors work.old }
    requires doors_once { DoorsOnce (words bundle.now) × (length (roots (words bundle.now)) ≡ 1) }
    requires table_clear { (i : ℕ) → i < bundle_words → half work.old 0 i ≡ 0 }
    ensures { Searched (words bundle.now) doors work.old work.new result }
{
    let mut top = seed(bundle, work, doors);
    while 0 < top {
        top -= 1;
        let i = get16(work, INDEX, doors + top) as usize;
        let s = get16(work, 0, i + 1);
        put16(work, 0, i + 1, 0);
        match follow_rows(bundle, counts, work, doors, i, s, top) {
            Some(height) => top = height,
            None => return true,
        }
    }
    false
}
