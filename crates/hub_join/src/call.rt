// The call that joins: the nodes of the answers as a set in the working buffer, and the set as a final list.
ghost use Rattle.std.specs.Prelude.{◌≡◌, [], ◌∷◌, length};
ghost use Rattle.files.specs.Word.{words};
ghost use Rattle.files.specs.Refusal.{number};
ghost use Rattle.files.specs.Outcome.{left, leaves};
ghost use Rattle.files.specs.Bundle.{second_bundle_check};
ghost use Rattle.files.specs.Limits.{bundle_words, final_words};
ghost use Rattle.output.specs.Writer.{Filed};
ghost use Rattle.output.specs.Frame.{input, Checked, Passed, Responds};
ghost use Rattle.hub_join.specs.Join.{joined, join_call};

use crate::listing::write_answers;
use bundles::bundle::{Trip, check_bundle};
use files::buffer::clear;
use files::limits::FINAL_WORDS;
use files::refusal::Refusal;
use files::refuse::check_room;
use kinds::mark::mark_kind;
use output::close::close;
use output::settle::settle;

// The checks in their order: the buffers, the bundle.
fn check(bundle: &[u8], out: usize, work: &mut [u8]) -> Result<(), Refusal>
    ensures { Checked final_words out (length work.old) (input bundle_words bundle.now (second_bundle_check (words bundle.now)) ∷ []) (number result) }
{
    check_room(FINAL_WORDS, out, work.len())?;
    check_bundle(bundle, Trip::Second, work)
}

// Writes the joined list of a bundle. Refuses one over its limit, and no other.
fn write(bundle: &[u8], out: &mut [u8], work: &mut [u8]) -> Result<(), Refusal>
    requires { Passed final_words (length out.old) (length work.old) (input bundle_words bundle.now (second_bundle_check (words bundle.now)) ∷ []) }
    ensures { Filed final_words (length out.old) (joined (words bundle.now)) out.new (number result) }
{
    clear(work);
    mark_kind(bundle, work, 14);
    clear(out);
    let count = write_answers(work, out, 1);
    close(15, 0, 0, FINAL_WORDS, count, out)
}

// The joined list, or the refusal of a check.
fn answer(bundle: &[u8], out: &mut [u8], work: &mut [u8]) -> Result<(), Refusal>
    ensures { Responds (join_call (length out.old) (length work.old) bundle.now) (length out.old) out.new (number result) }
{
    check(bundle, out.len(), work)?;
    write(bundle, out, work)
}

// Joins a bundle of second replies: the answers' nodes, ascending, as a final list.
pub fn join(bundle: &[u8], out: &mut [u8], work: &mut [u8]) -> u32
    ensures { left result out.new work.new
        ≡ leaves (join_call (length out.old) (length work.old) bundle.now) (length out.old) (length work.old) }
{
    let outcome = answer(bundle, out, work);
    settle(outcome, out, work)
}
