// The answer words of what a search reached, in the part's order.
ghost use Rattle.std.specs.Prelude.{◌≡◌, ◌*◌, ◌<◌, ◌≤◌, length};
ghost use Rattle.files.specs.Word.{words};
ghost use Rattle.files.specs.Field.{answer_word};
ghost use Rattle.files.specs.Limits.{part_words, work_bytes, final_words};
ghost use Rattle.output.specs.Writer.{Writes};
ghost use Rattle.slots.specs.Slots.{number};
ghost use Rattle.listing.specs.Listing.{lands, answer_here, answer_words};

use crate::tables::states_at;
use files::make::answer_word;
use output::writer::push;
use slots::position::{is_node, is_stopped, number_at};

fn landed(part: &[u8], work: &[u8], accepts: u16, i: usize) -> bool
    requires { (i < part_words) × (work_bytes ≤ length work.now) }
    ensures { result ≡ lands (words part.now) work.now accepts i }
{
    is_node(part, i) & !is_stopped(part, i) & !((states_at(work, i) & accepts) == 0)
}

fn answer_at(part: &[u8], i: usize) -> u32
    ensures { result ≡ answer_word (number (words part.now) i) }
{
    answer_word(number_at(part, i))
}

// The answer of position i, if there is one.
fn write_answer(
    part: &[u8],
    work: &[u8],
    accepts: u16,
    i: usize,
    out: &mut [u8],
    limit: usize,
    count: usize,
) -> usize
    requires { (i < part_words) × (work_bytes ≤ length work.now) × (limit ≤ final_words) × (4 * limit ≤ length out.old) }
    ensures { Writes limit (length out.old) out.old count out.new result
        (answer_here (words part.now) work.now accepts i) }
{
    if landed(part, work, accepts, i) {
        let w = answer_at(part, i);
        return push(out, limit, count, w);
    }
    count
}

// The answers of all positions, behind the `start` words that were written.
pub fn write_answers(
    part: &[u8],
    work: &[u8],
    accepts: u16,
    out: &mut [u8],
    limit: usize,
    start: usize,
) -> usize
    requires { (length (words part.now) ≤ part_words) × (work_bytes ≤ length work.now) × (limit ≤ final_words) × (4 * limit ≤ length out.old) }
    ensures { Writes limit (length out.old) out.old start out.new result
        (answer_words (words part.now) work.now accepts (length (words part.now))) }
{
    let n = part.len() / 4;
    let mut count = start;
    for i in 0..n {
        count = write_answer(part, work, accepts, i, out, limit, count);
    }
    count
}
