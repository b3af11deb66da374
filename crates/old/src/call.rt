// The old search's call: the final list of a path over a whole plant.
ghost use Rattle.std.specs.Prelude.{◌≡◌, [], ◌∷◌, length};
ghost use Rattle.files.specs.Word.{words};
ghost use Rattle.files.specs.Refusal.{number};
ghost use Rattle.files.specs.Outcome.{left, leaves};
ghost use Rattle.files.specs.Part.{whole_check};
ghost use Rattle.files.specs.Path.{path_check};
ghost use Rattle.files.specs.Groups.{groups_check, loaded};
ghost use Rattle.files.specs.Limits.{part_words, path_words, final_words};
ghost use Rattle.output.specs.Writer.{Filed};
ghost use Rattle.output.specs.Frame.{input, also, Passed, Responds};
ghost use Rattle.old.specs.Old.{listed, old_search_call, old_search_grouped_call};

use crate::search::search;
use files::buffer::clear;
use files::limits::{FINAL_WORDS, PART_WORDS};
use files::refusal::Refusal;
use groups::table::our_groups;
use listing::answers::write_answers;
use output::close::close;
use output::settle::settle;
use paths::automaton::position_automaton;
use whole_queries::asked::check;

// Writes the final list.
fn write(
    whole: &[u8],
    groups: &[u8],
    path: &[u8],
    out: &mut [u8],
    work: &mut [u8],
) -> Result<(), Refusal>
    requires { Passed final_words (length out.old) (length work.old)
        (input part_words whole.now (whole_check (words whole.now)) ∷ also (groups_check groups.now) ∷ input path_words path.now (path_check (words path.now)) ∷ []) }
    ensures { Filed final_words (length out.old) (listed (words whole.now) (loaded (words groups.now) (words path.now))) out.new (number result) }
{
    let a = position_automaton(path, groups);
    search(whole, a, work);
    let accepts = a.accepts;
    clear(out);
    let count = write_answers(whole, work, accepts, out, FINAL_WORDS, 1);
    close(15, 0, 0, FINAL_WORDS, count, out)
}

// The final list, or the refusal of a check.
fn answer(
    whole: &[u8],
    groups: &[u8],
    path: &[u8],
    out: &mut [u8],
    work: &mut [u8],
) -> Result<(), Refusal>
    ensures { Responds (old_search_grouped_call (length out.old) (length work.old) whole.now groups.now path.now)
        (length out.old) out.new (number result) }
{
    check(
        FINAL_WORDS,
        PART_WORDS,
        whole,
        groups,
        path,
        out.len(),
        work,
    )?;
    write(whole, groups, path, out, work)
}

// The old search: the nodes that the path's walks from the root lead to, ascending, as a final list.
pub fn old_search_grouped(
    whole: &[u8],
    groups: &[u8],
    path: &[u8],
    out: &mut [u8],
    work: &mut [u8],
) -> u32
    ensures { left result out.new work.new
        ≡ leaves (old_search_grouped_call (length out.old) (length work.old) whole.now groups.now path.now)
        (length out.old) (length work.old) }
{
    let outcome = answer(whole, groups, path, out, work);
    settle(outcome, out, work)
}

// Without groups: the same with our own.
pub fn old_search(whole: &[u8], path: &[u8], out: &mut [u8], work: &mut [u8]) -> u32
    ensures { left result out.new work.new
        ≡ leaves (old_search_call (length out.old) (length work.old) whole.now path.now)
        (length out.old) (length work.old) }
{
    let ours = our_groups();
    old_search_grouped(whole, &ours, path, out, work)
}
