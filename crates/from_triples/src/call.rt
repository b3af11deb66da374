// The call from triples: the ends of the triples go into a set of nodes, the triples into a queue, and both are gone through together.
ghost use Rattle.std.specs.Prelude.{◌≡◌, [], ◌∷◌, ◌≤◌, length};
ghost use Rattle.files.specs.Word.{words};
ghost use Rattle.files.specs.Refusal.{number};
ghost use Rattle.files.specs.Outcome.{left, leaves};
ghost use Rattle.files.specs.Limits.{part_words, triple_words, work_bytes};
ghost use Rattle.output.specs.Writer.{Filed};
ghost use Rattle.output.specs.Frame.{input, Checked, Passed, Responds};
ghost use Rattle.triples.specs.Triple.{triples_check, from_triples};
ghost use Rattle.from_triples.specs.From.{from_call};
ghost use Rattle.from_triples.specs.Nodes.{Prepared};

use crate::ends::{NODES, add_all};
use crate::nodes::write_nodes;
use files::buffer::clear;
use files::limits::PART_WORDS;
use files::refusal::Refusal;
use files::refuse::check_room;
use files::word::word_at;
use output::close::close;
use output::settle::settle;
use sets::node_set::add;
use triple_queue::queue::build;
use triples::check::{check_triples, count_triples};

// The checks in their order: the buffers, the triples.
fn check(triples: &[u8], out: usize, work: usize) -> Result<(), Refusal>
    ensures { Checked part_words out work (input triple_words triples.now (triples_check (words triples.now)) ∷ []) (number result) }
{
    check_room(PART_WORDS, out, work)?;
    check_triples(triples)
}

// Makes the set of the ends and the queue of the triples; hands back how many triples there are.
fn prepare(triples: &[u8], work: &mut [u8]) -> usize
    requires { (work_bytes ≤ length work.old) × (length (words triples.now) ≤ triple_words) × (triples_check (words triples.now) ≡ 0) }
    ensures { Prepared (words triples.now) work.new result }
{
    let n = count_triples(triples);
    clear(work);
    add(work, NODES, word_at(triples, 0));
    add_all(triples, work, n);
    build(triples, work, n);
    n
}

// Writes the whole file. Refuses one over its limit, and no other.
fn write(triples: &[u8], out: &mut [u8], work: &mut [u8]) -> Result<(), Refusal>
    requires { Passed part_words (length out.old) (length work.old) (input triple_words triples.now (triples_check (words triples.now)) ∷ []) }
    ensures { Filed part_words (length out.old) (from_triples (words triples.now)) out.new (number result) }
{
    let n = prepare(triples, work);
    clear(out);
    let count = write_nodes(triples, word_at(triples, 0), work, n, out, 1);
    close(1, 0, 0, PART_WORDS, count, out)
}

// The whole file, or the refusal of a check.
fn answer(triples: &[u8], out: &mut [u8], work: &mut [u8]) -> Result<(), Refusal>
    ensures { Responds (from_call (length out.old) (length work.old) triples.now) (length out.old) out.new (number result) }
{
    check(triples, out.len(), work.len())?;
    write(triples, out, work)
}

// Turns a triple file into a whole file.
pub fn from_triples(triples: &[u8], out: &mut [u8], work: &mut [u8]) -> u32
    ensures { left result out.new work.new ≡ leaves
        (from_call (length out.old) (length work.old) triples.now)
        (length out.old) (length work.old) }
{
    let outcome = answer(triples, out, work);
    settle(outcome, out, work)
}
