// A part is made ready for searches by an automaton: its tables are laid out, each edge word gets the mask of its label, and nothing is marked.
// Behind a stopped node the masks are empty, so that no walk goes on from it; the search itself knows nothing of stopped nodes.
ghost use Rattle.std.specs.Prelude.{◌≡◌, ◌+◌, ◌<◌, ◌≤◌, length};
ghost use Rattle.files.specs.Word.{words};
ghost use Rattle.files.specs.Part.{part_check};
ghost use Rattle.files.specs.Limits.{part_words, work_bytes};
ghost use Rattle.paths.specs.Letters.{reads};
ghost use Rattle.slots.specs.Slots.{idle_at, exit_at};
ghost use Rattle.preparing.specs.Prepare.{Filled, AllFilled, Prepared};

use files::field::{label, stopped};
use files::part::is_node;
use files::word::word_at;
use paths::automaton::{Automaton, mask};
use sets::table::put16;
use slots::layout::resolve;
use slots::position::is_edge;
use slots::tables::{MASK, REACHED};

// Whether position x has an edge that a walk may take; `idle` if it stands behind a stopped node.
fn is_exit(part: &[u8], x: usize, idle: bool) -> bool
    requires { idle ≡ idle_at (words part.now) x }
    ensures { result ≡ exit_at (words part.now) x }
{
    is_edge(part, x) & !idle
}

// Takes the marks at position x away, and writes the mask of the edge word there, where a walk may take it.
fn fill_at(part: &[u8], a: &Automaton, work: &mut [u8], x: usize, idle: bool)
    requires { (x < part_words) × (work_bytes ≤ length work.old) × (idle ≡ idle_at (words part.now) x) }
    ensures { Filled (words part.now) (reads a.now.letters) work.old work.new x }
{
    put16(work, REACHED, x, 0);
    if is_exit(part, x, idle) {
        let m = mask(*a, label(word_at(part, x)));
        put16(work, MASK, x, m);
        return;
    }
    put16(work, MASK, x, 0);
}

// Whether the words behind position x, up to the next node word, stand behind a stopped node.
fn idle_behind(part: &[u8], x: usize, idle: bool) -> bool
    requires { idle ≡ idle_at (words part.now) x }
    ensures { result ≡ idle_at (words part.now) (x + 1) }
{
    let w = word_at(part, x);
    if is_node(w) {
        return stopped(w);
    }
    idle
}

fn fill(part: &[u8], a: &Automaton, work: &mut [u8])
    requires { (length (words part.now) ≤ part_words) × (work_bytes ≤ length work.old) }
    ensures { AllFilled (words part.now) (reads a.now.letters) work.old work.new }
{
    let n = part.len() / 4;
    let mut idle = false;
    for x in 0..n {
        fill_at(part, a, work, x, idle);
        idle = idle_behind(part, x, idle);
    }
}

// Makes the tables of an accepted part ready. Gives the number of its outside targets.
pub fn prepare(part: &[u8], a: &Automaton, work: &mut [u8]) -> usize
    requires { (part_check (words part.now) ≡ 0) × (length (words part.now) ≤ part_words) × (work_bytes ≤ length work.old) }
    ensures { Prepared (words part.now) (reads a.now.letters) result work.new }
{
    let outside = resolve(part, work);
    fill(part, a, work);
    outside
}
