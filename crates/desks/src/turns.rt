// The turn of one desk. In the first round its reply goes behind the ones before it, as long as every desk to come could still have a short one beside
// it; from the first that does not fit so on, replies are only measured. In the second round the words of all short replies are known.
ghost use Rattle.std.specs.Prelude.{length};
ghost use Rattle.path_bundles.specs.Place.{file_at};
ghost use Rattle.visits.specs.Answered.{own};
ghost use Rattle.desks.specs.Turns.{Asking, MayLay, Lays, MayChoose, Chooses};

use super::stand::{SHORT_WORDS, Stand, erase, settle_desk, short_part};
use files::limits::REPLY_WORDS;
use files::numbered::Numbered;
use files::refusal::Refusal;
use path_bundles::split::file_at;
use visits::numbered::ask;

// The first round at desk i, with so many desks to come.
pub fn lay<N: Numbered>(
    whole: N,
    part: &[u8],
    groups: &[u8],
    paths: &[u8],
    i: usize,
    come: usize,
    s: Stand,
    out: &mut [u8],
    work: &mut [u8],
) -> Stand
    requires { Asking (N.number whole) (length out.old) (length work.old) part.now groups.now × MayLay i come (length out.old) s }
    ensures { Lays (own (N.number whole) part.now groups.now (file_at i paths.now)) i come (length out.old)
        s out.old result out.new }
{
    let at = s.words;
    let asked = ask(whole, part, groups, file_at(paths, i), at, out, work);
    let end = asked.unwrap_or(at);
    if (s.next == i) & (end + SHORT_WORDS * come <= REPLY_WORDS) {
        return settle_desk(s, asked, end, 0);
    }
    erase(out, at);
    Stand {
        later: s.later + short_part(end - at),
        ..s
    }
}

// The second round at the next desk: a short reply goes in, a longer one if it fits beside those that are in and the short ones to come.
pub fn choose<N: Numbered>(
    whole: N,
    part: &[u8],
    groups: &[u8],
    paths: &[u8],
    s: Stand,
    out: &mut [u8],
    work: &mut [u8],
) -> Stand
    requires { Asking (N.number whole) (length out.old) (length work.old) part.now groups.now
        × MayChoose (own (N.number whole) part.now groups.now (file_at s.next paths.now)) (length out.old) s }
    ensures { Chooses (own (N.number whole) part.now groups.now (file_at s.next paths.now)) (length out.old)
        s out.old result out.new }
{
    let at = s.words;
    let asked = ask(whole, part, groups, file_at(paths, s.next), at, out, work);
    let end = asked.unwrap_or(at);
    if (end <= REPLY_WORDS) & (end - at <= SHORT_WORDS) {
        return settle_desk(s, asked, end, s.later - (end - at));
    }
    if end + s.later <= REPLY_WORDS {
        return settle_desk(s, asked, end, s.later);
    }
    erase(out, at);
    settle_desk(s, Refusal::TooLong, at, s.later)
}
