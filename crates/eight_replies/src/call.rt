// One reply for eight askers, as a call, with groups and without.
ghost use Rattle.std.specs.Prelude.{◌≡◌, length};
ghost use Rattle.files.specs.Outcome.{left};
ghost use Rattle.eight_replies.specs.Eight.{eight_replies_call, eight_replies_grouped_call};

use crate::rounds::{DESKS, share};
use files::buffer::clear;
use groups::table::our_groups;
use visits::whole::check;

// The call, with the customer's groups.
pub fn eight_replies_grouped(
    part: &[u8],
    groups: &[u8],
    paths: &[u8],
    out: &mut [u8],
    work: &mut [u8],
) -> u64
    ensures { left result out.new work.new
        ≡ eight_replies_grouped_call (length out.old) (length work.old) part.now groups.now paths.now }
{
    let whole = check(part, groups, paths, DESKS, out.len(), work.len());
    let numbers = share(whole, part, groups, paths, out, work);
    clear(work);
    numbers
}

// Without groups: the same with our own.
pub fn eight_replies(part: &[u8], paths: &[u8], out: &mut [u8], work: &mut [u8]) -> u64
    ensures { left result out.new work.new
        ≡ eight_replies_call (length out.old) (length work.old) part.now paths.now }
{
    let ours = our_groups();
    eight_replies_grouped(part, &ours, paths, out, work)
}
