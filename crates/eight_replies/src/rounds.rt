// Two rounds over the desks. The second goes on from the first desk whose reply did not surely fit in the first. So no reply is searched more than
// twice, and where all are short, once.
ghost use Rattle.std.specs.Prelude.{◌≡◌, ◌+◌, ◌-◌, ◌<◌, length};
ghost use Rattle.files.specs.Outcome.{zeros};
ghost use Rattle.desks.specs.Owns.{owns};
ghost use Rattle.desks.specs.Turns.{Asking};
ghost use Rattle.eight_replies.specs.Rounds.{Stood, Shares};

use desks::stand::Stand;
use desks::turns::{choose, lay};
use files::buffer::clear;
use files::numbered::Numbered;
use path_bundles::split::count_files;

pub const DESKS: usize = 8;

// All desks. Those from `next` on, if any, are left to the second round.
fn lay_all<N: Numbered>(
    whole: N,
    part: &[u8],
    groups: &[u8],
    paths: &[u8],
    out: &mut [u8],
    work: &mut [u8],
) -> Stand
    requires { Asking (N.number whole) (length out.old) (length work.old) part.now groups.now × (out.old ≡ zeros (length out.old)) }
    ensures { Stood (length out.old) (owns (N.number whole) part.now groups.now 8 paths.now) result out.new }
{
    let desks = count_files(paths, DESKS);
    let mut s = Stand {
        numbers: 0,
        next: 0,
        words: 0,
        later: 0,
    };
    for i in 0..DESKS {
        let come = desks.saturating_sub(i + 1);
        s = lay(whole, part, groups, paths, i, come, s, out, work);
    }
    s
}

// The rest, from the next desk on.
fn choose_rest<N: Numbered>(
    whole: N,
    part: &[u8],
    groups: &[u8],
    paths: &[u8],
    start: Stand,
    out: &mut [u8],
    work: &mut [u8],
) -> u64
    requires { Asking (N.number whole) (length out.old) (length work.old) part.now groups.now
        × Stood (length out.old) (owns (N.number whole) part.now groups.now 8 paths.now) start out.old }
    ensures { Shares (length out.old) (owns (N.number whole) part.now groups.now 8 paths.now) result out.new }
{
    let mut s = start;
    while s.next < DESKS {
        s = choose(whole, part, groups, paths, s, out, work);
    }
    s.numbers
}

// The numbers of all desks, and in the output the replies that are put in.
pub fn share<N: Numbered>(
    whole: N,
    part: &[u8],
    groups: &[u8],
    paths: &[u8],
    out: &mut [u8],
    work: &mut [u8],
) -> u64
    requires { Asking (N.number whole) (length out.old) (length work.old) part.now groups.now }
    ensures { Shares (length out.old) (owns (N.number whole) part.now groups.now 8 paths.now) result out.new }
{
    clear(out);
    let laid = lay_all(whole, part, groups, paths, out, work);
    choose_rest(whole, part, groups, paths, laid, out, work)
}
