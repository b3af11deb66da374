// The search of a part: from the marked pairs of a node and a state along edge words, until no node waits. The tables are those of
// slots/specs/Slots.antt.
ghost use Rattle.std.specs.Prelude.{◌≡◌, true, ◌<◌, ◌≤◌, length};
ghost use Rattle.files.specs.Word.{words};
ghost use Rattle.files.specs.Limits.{part_words, work_bytes};
ghost use Rattle.slots.specs.Slots.{node_at, Laid};
ghost use Rattle.part_search.specs.Search.{Begun, StepClosed, Forgot, Fresh, Seeded, Searched};

use entering::enter::{enter, walk};
use sets::follow::follow_all;
use sets::states::with;
use sets::table::{get16, put16};
use slots::position::is_node;
use slots::tables::{PENDING, PLACE, REACHED};

// Searches from the marked pairs, of which `height` nodes stand on the stack, until no node waits. What an earlier search reached is not
// entered again. `follow[q]` has what may follow q.
pub fn run(part: &[u8], follow: &[u16; 16], work: &mut [u8], outside: usize, height: usize)
    requires { Begun (words part.now) outside work.old height × StepClosed (words part.now) follow.now work.old }
    ensures { Searched (words part.now) outside follow.now work.old work.new }
{
    let mut top = height;
    while top != 0 {
        top -= 1;
        let i = get16(work, PLACE, outside + top) as usize;
        let s = get16(work, PENDING, i);
        put16(work, PENDING, i, 0);
        let u = follow_all(*follow, s);
        top = walk(part, work, outside, i, u, top);
    }
}

// Marks the node at i in state q, where a search is to begin. Gives the stack's height.
pub fn seed(part: &[u8], work: &mut [u8], outside: usize, i: usize, q: u32, top: usize) -> usize
    requires { Begun (words part.now) outside work.old top × (node_at (words part.now) i ≡ true) × (q < 16) }
    ensures { Seeded (words part.now) outside work.old work.new i q result }
{
    let m = with(0, q);
    enter(part, work, outside, i, m, top)
}

// Takes the marks at position i away.
fn forget(part: &[u8], work: &mut [u8], i: usize)
    requires { (i < length (words part.now)) × (length (words part.now) ≤ part_words) × (work_bytes ≤ length work.old) }
    ensures { Forgot (words part.now) work.old work.new i }
{
    put16(work, REACHED, i, 0);
    if is_node(part, i) {
        put16(work, PENDING, i, 0);
    }
}

// Takes all marks away: no slot is reached, and no node waits.
pub fn reset(part: &[u8], work: &mut [u8], outside: usize)
    requires { Laid (words part.now) outside work.old }
    ensures { Fresh (words part.now) outside work.old work.new }
{
    let n = part.len() / 4;
    for i in 0..n {
        forget(part, work, i);
    }
}
