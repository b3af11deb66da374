// One path of a visit.
ghost use Rattle.std.specs.Prelude.{◌≤◌, length};
ghost use Rattle.std.specs.Result.{result_unwrap_or};
ghost use Rattle.files.specs.Refusal.{number};
ghost use Rattle.files.specs.Limits.{reply_words};
ghost use Rattle.visits.specs.Answered.{SiteReady, PathAsked, PathAnswered, PathLeft};

use files::buffer::clear;
use files::limits::REPLY_WORDS;
use files::refusal::{Refusal, ensure};
use output::settle::withhold;
use path_bundles::split::file_at;
use queries::path::check_path;
use site_first::call::append;

// What a path comes to by itself: the refusal of the whole or of this path, or where its reply ends, or one past the limit. Puts its reply behind the
// first `at` words of the output, as far as it fits; nothing where it is refused, or where there is no path.
pub fn ask(
    whole: Result<(), Refusal>,
    part: &[u8],
    groups: &[u8],
    path: &[u8],
    at: usize,
    out: &mut [u8],
    work: &mut [u8],
) -> Result<usize, Refusal>
    requires { SiteReady (number whole) (length out.old) (length work.old) part.now groups.now × (at ≤ reply_words) }
    ensures { PathAsked (number whole) part.now groups.now path.now (length out.old) out.old at out.new (number result) (result_unwrap_or result at) }
{
    whole?;
    if path.len() == 0 {
        return Ok(at);
    }
    check_path(path)?;
    Ok(append(part, groups, path, at, out, work))
}

// Its reply, or the refusal of the whole or of this path; nothing where there is no path.
fn answer(
    whole: Result<(), Refusal>,
    part: &[u8],
    groups: &[u8],
    path: &[u8],
    out: &mut [u8],
    work: &mut [u8],
) -> Result<(), Refusal>
    requires { SiteReady (number whole) (length out.old) (length work.old) part.now groups.now }
    ensures { PathAnswered (number whole) part.now groups.now path.now (length out.old) out.new (number result) }
{
    clear(out);
    let end = ask(whole, part, groups, path, 0, out, work)?;
    ensure(end <= REPLY_WORDS, Refusal::TooLong)
}

// The path of an index: what it comes to, and its reply or, after a refusal, zeros.
pub fn reply(
    whole: Result<(), Refusal>,
    part: &[u8],
    groups: &[u8],
    paths: &[u8],
    index: usize,
    out: &mut [u8],
    work: &mut [u8],
) -> Result<(), Refusal>
    requires { SiteReady (number whole) (length out.old) (length work.old) part.now groups.now }
    ensures { PathLeft (number whole) part.now groups.now paths.now index (length out.old) (number result) out.new }
{
    let path = file_at(paths, index);
    let outcome = answer(whole, part, groups, path, out, work);
    withhold(outcome, out);
    outcome
}
