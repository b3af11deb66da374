// The call for a second reply: the answers of the search from the called pairs.
ghost use Rattle.std.specs.Prelude.{◌≡◌, [], ◌∷◌, length};
ghost use Rattle.files.specs.Word.{words};
ghost use Rattle.files.specs.Refusal.{number};
ghost use Rattle.files.specs.Outcome.{left, leaves};
ghost use Rattle.files.specs.Part.{part_check};
ghost use Rattle.files.specs.Path.{path_check};
ghost use Rattle.files.specs.Groups.{groups_check, loaded};
ghost use Rattle.files.specs.Calls.{calls_check};
ghost use Rattle.files.specs.Limits.{part_words, path_words, reply_words};
ghost use Rattle.output.specs.Writer.{Filed};
ghost use Rattle.output.specs.Frame.{input, also, Checked, Passed, Responds};
ghost use Rattle.site_second.specs.Second.{against_check, second_reply, second_reply_call, second_reply_grouped_call};

use crate::search::search;
use files::buffer::clear;
use files::field::{labels, site};
use files::limits::REPLY_WORDS;
use files::refusal::Refusal;
use files::refuse::check_room;
use files::word::word_at;
use groups::table::{check_groups, our_groups};
use listing::answers::write_answers;
use output::close::close;
use output::settle::settle;
use paths::automaton::position_automaton;
use queries::calls::check_calls;
use queries::path::check_path;
use readers::part::check_part;
use site_calls::called::check_against;

// The checks in their order: the buffers, part, groups, path and call list, and the call list against part and path.
fn check(
    part: &[u8],
    groups: &[u8],
    path: &[u8],
    calls: &[u8],
    out: usize,
    work: usize,
) -> Result<(), Refusal>
    ensures { Checked reply_words out work
        (input part_words part.now (part_check (words part.now)) ∷ also (groups_check groups.now) ∷ input path_words path.now (path_check (words path.now))
        ∷ input reply_words calls.now (calls_check (words calls.now)) ∷ also (against_check (words part.now) (words path.now) (words calls.now)) ∷ []) (number result) }
{
    check_room(REPLY_WORDS, out, work)?;
    check_part(part)?;
    check_groups(groups)?;
    check_path(path)?;
    check_calls(calls)?;
    check_against(part, path, calls)
}

// Writes the reply.
fn write(
    part: &[u8],
    groups: &[u8],
    path: &[u8],
    calls: &[u8],
    out: &mut [u8],
    work: &mut [u8],
) -> Result<(), Refusal>
    requires { Passed reply_words (length out.old) (length work.old)
        (input part_words part.now (part_check (words part.now)) ∷ also (groups_check groups.now) ∷ input path_words path.now (path_check (words path.now))
        ∷ input reply_words calls.now (calls_check (words calls.now)) ∷ also (against_check (words part.now) (words path.now) (words calls.now)) ∷ []) }
    ensures { Filed reply_words (length out.old) (second_reply (words part.now) (loaded (words groups.now) (words path.now)) (words calls.now)) out.new (number result) }
{
    let a = position_automaton(path, groups);
    search(part, calls, a, work);
    let accepts = a.accepts;
    clear(out);
    let count = write_answers(part, work, accepts, out, REPLY_WORDS, 1);
    let s = site(word_at(part, 0));
    let n = labels(word_at(path, 0));
    close(13, s, n, REPLY_WORDS, count, out)
}

// The second reply, or the refusal of a check.
fn answer(
    part: &[u8],
    groups: &[u8],
    path: &[u8],
    calls: &[u8],
    out: &mut [u8],
    work: &mut [u8],
) -> Result<(), Refusal>
    ensures { Responds (second_reply_grouped_call (length out.old) (length work.old) part.now groups.now path.now calls.now)
        (length out.old) out.new (number result) }
{
    check(part, groups, path, calls, out.len(), work.len())?;
    write(part, groups, path, calls, out, work)
}

// A site's second reply, with the customer's groups: the nodes of its part that the path's walks from the called pairs lead to.
pub fn second_reply_grouped(
    part: &[u8],
    groups: &[u8],
    path: &[u8],
    calls: &[u8],
    out: &mut [u8],
    work: &mut [u8],
) -> u32
    ensures { left result out.new work.new
        ≡ leaves (second_reply_grouped_call (length out.old) (length work.old) part.now groups.now path.now calls.now)
        (length out.old) (length work.old) }
{
    let outcome = answer(part, groups, path, calls, out, work);
    settle(outcome, out, work)
}

// Without groups: the same with our own.
pub fn second_reply(part: &[u8], path: &[u8], calls: &[u8], out: &mut [u8], work: &mut [u8]) -> u32
    ensures { left result out.new work.new
        ≡ leaves (second_reply_call (length out.old) (length work.old) part.now path.now calls.now)
        (length out.old) (length work.old) }
{
    let ours = our_groups();
    second_reply_grouped(part, &ours, path, calls, out, work)
}
