// A row of a first reply: what a search reached outside the part, ascending, behind its row word.
ghost use Rattle.std.specs.Prelude.{◌≡◌, List, ◌∷◌, map, ℕ, ◌*◌, ◌<◌, ◌≤◌, length};
ghost use Rattle.files.specs.Word.{words};
ghost use Rattle.files.specs.Field.{row_word, reach_word};
ghost use Rattle.files.specs.Limits.{part_words, work_bytes, final_words};
ghost use Rattle.output.specs.Writer.{Puts, Writes};
ghost use Rattle.slots.specs.Slots.{place_of};
ghost use Rattle.listing.specs.Rows.{Places, pairs_at, pairs_up_to};

use crate::tables::{place_at, states_at};
use files::make::row_word;
use output::pairs::write_pairs;
use output::writer::push;
use sets::states::size;
use slots::position::number_at;

// The reach words of the outside target in place k.
fn write_target(
    part: &[u8],
    work: &[u8],
    k: usize,
    out: &mut [u8],
    limit: usize,
    start: usize,
) -> usize
    requires { (k < part_words) × (place_of work.now k < part_words) × (work_bytes ≤ length work.now) × (limit ≤ final_words) × (4 * limit ≤ length out.old) }
    ensures { Writes limit (length out.old) out.old start out.new result (map reach_word (pairs_at (words part.now) work.now k)) }
{
    let i = place_at(work, k);
    let x = number_at(part, i);
    let s = states_at(work, i);
    write_pairs(10, x, s, out, limit, start)
}

// The reach words of the outside targets in the first t places.
fn write_targets(part: &[u8], work: &[u8], t: usize, out: &mut [u8], limit: usize, start: usize)
    requires { Places work.now t × (limit ≤ final_words) × (4 * limit ≤ length out.old) }
    ensures { Puts limit (length out.old) out.old start out.new (map reach_word (pairs_up_to (words part.now) work.now t)) }
{
    let mut at = start;
    for k in 0..t {
        at = write_target(part, work, k, out, limit, at);
    }
}

// How many pairs a row has: the states of each target, counted.
pub fn row_length(work: &[u8], t: usize) -> usize
    requires { Places work.now t }
    ensures { (ws : List ℕ) → result ≡ length (pairs_up_to ws work.now t) }
{
    let mut n: usize = 0;
    for k in 0..t {
        let i = place_at(work, k);
        n += size(states_at(work, i)) as usize;
    }
    n
}

// The row of state q, behind the `start` words that were written; its length is known from its pairs.
pub fn write_row(
    part: &[u8],
    work: &[u8],
    t: usize,
    q: u32,
    out: &mut [u8],
    limit: usize,
    start: usize,
)
    requires { Places work.now t × (q < 16) × (limit ≤ final_words) × (4 * limit ≤ length out.old) }
    ensures { Puts limit (length out.old) out.old start out.new (row_word q ∷ map reach_word (pairs_up_to (words part.now) work.now t)) }
{
    let w = row_word(q);
    let at = push(out, limit, start, w);
    write_targets(part, work, t, out, limit, at);
}
