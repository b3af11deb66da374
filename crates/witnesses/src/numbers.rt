// A caller's own number, that of no refusal: the ends of calls, of a visit's paths and of desks take it as they take a refusal's.
ghost use Rattle.std.specs.Prelude.{◌≡◌, length};
ghost use Rattle.files.specs.Outcome.{zeros, left};

use eight_replies::rounds::share;
use output::settle::settle;
use visits::numbered::reply;

const OWN: u32 = 100;

pub fn settle_own(out: &mut [u8], work: &mut [u8]) -> u32
    ensures { left result out.new work.new ≡ left 100 (zeros (length out.old)) (zeros (length work.old)) }
{
    settle(OWN, out, work)
}

// Of a whole that is refused by it, whatever part, groups and paths are, a path gets it and no reply.
pub fn reply_own(
    part: &[u8],
    groups: &[u8],
    paths: &[u8],
    index: usize,
    out: &mut [u8],
    work: &mut [u8],
) -> u32
    ensures number { result ≡ 100 }
    ensures output { out.new ≡ zeros (length out.old) }
{
    reply(OWN, part, groups, paths, index, out, work)
}

// And each of the eight desks.
pub fn share_own(part: &[u8], groups: &[u8], paths: &[u8], out: &mut [u8], work: &mut [u8]) -> u64
    ensures numbers { result ≡ 0x6464_6464_6464_6464 }
    ensures output { out.new ≡ zeros (length out.old) }
{
    share(OWN, part, groups, paths, out, work)
}
