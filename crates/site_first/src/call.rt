// The first reply, as a call, with groups and without.
ghost use Rattle.std.specs.Prelude.{◌≡◌, [], ◌∷◌, ◌≤◌, length};
ghost use Rattle.files.specs.Word.{words};
ghost use Rattle.files.specs.Refusal.{number};
ghost use Rattle.files.specs.Outcome.{left, leaves};
ghost use Rattle.files.specs.Part.{part_check};
ghost use Rattle.files.specs.Path.{path_check};
ghost use Rattle.files.specs.Groups.{groups_check, loaded};
ghost use Rattle.files.specs.Limits.{part_words, path_words, reply_words};
ghost use Rattle.output.specs.Writer.{Extends, Filed};
ghost use Rattle.output.specs.Frame.{input, also, Checked, Passed, Responds};
ghost use Rattle.first_replies.specs.FirstReply.{first_reply};
ghost use Rattle.site_first.specs.First.{first_reply_call, first_reply_grouped_call};

use files::buffer::clear;
use files::field::site;
use files::limits::REPLY_WORDS;
use files::refusal::{Refusal, ensure};
use files::refuse::check_room;
use files::word::word_at;
use groups::table::{check_groups, our_groups};
use output::close::close_at;
use output::settle::settle;
use paths::automaton::position_automaton;
use preparing::prepare::prepare;
use queries::path::check_path;
use readers::part::check_part;
use reporting::reporting::report_doors;

// The checks in their order: the buffers, the part, the groups, the path.
fn check(part: &[u8], groups: &[u8], path: &[u8], out: usize, work: usize) -> Result<(), Refusal>
    ensures { Checked reply_words out work
        (input part_words part.now (part_check (words part.now)) ∷ also (groups_check groups.now) ∷ input path_words path.now (path_check (words path.now)) ∷ []) (number result) }
{
    check_room(REPLY_WORDS, out, work)?;
    check_part(part)?;
    check_groups(groups)?;
    check_path(path)
}

// Writes the reply behind the first `at` words of the output, as far as it fits. Gives where it ends, or one past the limit.
pub fn append(
    part: &[u8],
    groups: &[u8],
    path: &[u8],
    at: usize,
    out: &mut [u8],
    work: &mut [u8],
) -> usize
    requires { Passed reply_words (length out.old) (length work.old)
        (input part_words part.now (part_check (words part.now)) ∷ also (groups_check groups.now) ∷ input path_words path.now (path_check (words path.now)) ∷ []) × (at ≤ reply_words) }
    ensures { Extends reply_words (length out.old) out.old at
        (first_reply (words part.now) (loaded (words groups.now) (words path.now))) out.new result }
{
    let a = position_automaton(path, groups);
    let outside = prepare(part, &a, work);
    let n = a.letters.n;
    let end = report_doors(part, &a.follow, work, outside, n, out, at + 1);
    let s = site(word_at(part, 0));
    close_at(7, s, n % 16, REPLY_WORDS, at, end, out);
    end
}

// Writes the reply into a cleared output, as far as it fits. Refuses one over its limit, and no other.
fn write(
    part: &[u8],
    groups: &[u8],
    path: &[u8],
    out: &mut [u8],
    work: &mut [u8],
) -> Result<(), Refusal>
    requires { Passed reply_words (length out.old) (length work.old)
        (input part_words part.now (part_check (words part.now)) ∷ also (groups_check groups.now) ∷ input path_words path.now (path_check (words path.now)) ∷ []) }
    ensures { Filed reply_words (length out.old) (first_reply (words part.now) (loaded (words groups.now) (words path.now))) out.new (number result) }
{
    clear(out);
    let end = append(part, groups, path, 0, out, work);
    ensure(end <= REPLY_WORDS, Refusal::TooLong)
}

// The reply, or the refusal of a check.
fn answer(
    part: &[u8],
    groups: &[u8],
    path: &[u8],
    out: &mut [u8],
    work: &mut [u8],
) -> Result<(), Refusal>
    ensures { Responds (first_reply_grouped_call (length out.old) (length work.old) part.now groups.now path.now)
        (length out.old) out.new (number result) }
{
    check(part, groups, path, out.len(), work.len())?;
    write(part, groups, path, out, work)
}

// The call, with the customer's groups.
pub fn first_reply_grouped(
    part: &[u8],
    groups: &[u8],
    path: &[u8],
    out: &mut [u8],
    work: &mut [u8],
) -> u32
    ensures { left result out.new work.new
        ≡ leaves (first_reply_grouped_call (length out.old) (length work.old) part.now groups.now path.now)
        (length out.old) (length work.old) }
{
    let outcome = answer(part, groups, path, out, work);
    settle(outcome, out, work)
}

// Without groups: the same with our own.
pub fn first_reply(part: &[u8], path: &[u8], out: &mut [u8], work: &mut [u8]) -> u32
    ensures { left result out.new work.new
        ≡ leaves (first_reply_call (length out.old) (length work.old) part.now path.now)
        (length out.old) (length work.old) }
{
    let ours = our_groups();
    first_reply_grouped(part, &ours, path, out, work)
}
