// Pairs entered at their doors' places. A door with rows that gains a state waits, and stands on the stack, once.
ghost use Rattle.std.specs.Prelude.{◌≡◌, true, ◌<◌, get_or};
ghost use Rattle.files.specs.Word.{words};
ghost use Rattle.files.specs.Reply.{is_door_word};
ghost use Rattle.hub_search.specs.Search.{expands, Roomy, Waiting, Waits, Entered};

use door_index::index::INDEX;
use files::word::word_at;
use row_scan::rows::in_rows;
use sets::states::{has, with};
use sets::table::{get16, put16};

// Lets the door at j wait in state q too, and puts it on the stack where it did not wait. Gives the stack's height.
fn wait(bundle: &[u8], work: &mut [u8], doors: usize, j: usize, q: u32, top: usize) -> usize
    requires roomy { Roomy (words bundle.now) doors work.old × (expands (words bundle.now) j ≡ true) × (q < 16) }
    requires waiting { Waiting (words bundle.now) doors work.old top }
    ensures waits { Waits (words bundle.now) doors work.old work.new j q }
    ensures still_waiting { Waiting (words bundle.now) doors work.new result }
{
    let p = get16(work, 0, j + 1);
    put16(work, 0, j + 1, with(p, q));
    if p != 0 {
        return top;
    }
    put16(work, INDEX, doors + top, j as u16);
    top + 1
}

// Enters state q at the door at j. Gives the stack's height.
pub fn enter(bundle: &[u8], work: &mut [u8], doors: usize, j: usize, q: u32, top: usize) -> usize
    requires roomy { Roomy (words bundle.now) doors work.old × (is_door_word (get_or (words bundle.now) j 0) ≡ true) × (q < 16) }
    requires waiting { Waiting (words bundle.now) doors work.old top }
    ensures entered { Entered (words bundle.now) doors work.old work.new j q }
    ensures still_waiting { Waiting (words bundle.now) doors work.new result }
{
    let r = get16(work, 0, j);
    if has(r, q) {
        return top;
    }
    put16(work, 0, j, with(r, q));
    if in_rows(word_at(bundle, j + 1)) {
        return wait(bundle, work, doors, j, q, top);
    }
    top
}
