// The call to triples: the root, then the triples, and how many words they are.
ghost use Rattle.std.specs.Prelude.{◌≡◌, [], ◌∷◌, ◌*◌, ◌≤◌, length};
ghost use Rattle.std.specs.Result.{result_unwrap_or};
ghost use Rattle.files.specs.Word.{words};
ghost use Rattle.files.specs.Refusal.{number};
ghost use Rattle.files.specs.Outcome.{padded, left, left_lent, lent_by};
ghost use Rattle.files.specs.Part.{whole_check};
ghost use Rattle.files.specs.Limits.{part_words, triple_words};
ghost use Rattle.output.specs.Frame.{input, also, Checked, Responds};
ghost use Rattle.triples.specs.Triple.{to_triples, say_check};
ghost use Rattle.to_triples.specs.To.{to_call, leaves_counted};

use crate::listing::write_triples;
use crate::say::check_said;
use files::buffer::clear;
use files::field::node;
use files::limits::TRIPLE_WORDS;
use files::refusal::Refusal;
use files::refuse::check_room;
use files::word::word_at;
use kinds::count::Mark;
use kinds::find::find_kind;
use output::settle::settle;
use output::writer::push;
use wholes::whole::check_whole;

// The checks in their order: the buffers, the whole, what triples can't say.
fn check(whole: &[u8], out: usize, work: &mut [u8]) -> Result<(), Refusal>
    ensures { Checked triple_words out (length work.old)
        (input part_words whole.now (whole_check (words whole.now)) ∷ also (say_check (words whole.now)) ∷ []) (number result) }
{
    check_room(TRIPLE_WORDS, out, work.len())?;
    check_whole(whole, work)?;
    check_said(whole, work)
}

// Writes the root and the triples; hands back how many words they are.
fn write(whole: &[u8], out: &mut [u8]) -> usize
    requires { (4 * triple_words ≤ length out.old) × (length (words whole.now) ≤ part_words) × (whole_check (words whole.now) ≡ 0) }
    ensures { (out.new ≡ padded (length out.old) (to_triples (words whole.now))) × (result ≡ length (to_triples (words whole.now))) }
{
    let root = node(word_at(whole, find_kind(whole, 2, Mark::Bit17)));
    clear(out);
    let count = push(out, TRIPLE_WORDS, 0, root);
    write_triples(whole, out, count)
}

// The triples, of which it gives the count, or the refusal of a check.
fn answer(whole: &[u8], out: &mut [u8], work: &mut [u8]) -> Result<u32, Refusal>
    ensures { Responds (to_call (length out.old) (length work.old) whole.now) (length out.old) out.new (number result)
        × (result_unwrap_or result 0 ≡ lent_by (to_call (length out.old) (length work.old) whole.now) 0 (length (to_triples (words whole.now)))) }
{
    check(whole, out.len(), work)?;
    Ok(write(whole, out) as u32)
}

// Turns a whole file into a triple file.
pub fn to_triples(whole: &[u8], out: &mut [u8], count: &mut u32, work: &mut [u8]) -> u32
    ensures { left_lent count.new (left result out.new work.new)
        ≡ leaves_counted (length out.old) (length work.old) whole.now }
{
    let answered = answer(whole, out, work);
    *count = answered.unwrap_or(0);
    settle(answered.and(Ok(())), out, work)
}
