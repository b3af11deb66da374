// Four paths in one visit, as a call, with groups and without.
ghost use Rattle.std.specs.Prelude.{◌≡◌, [], ◌∷◌, length};
ghost use Rattle.path_bundles.specs.Packed.{left_several};
ghost use Rattle.four_replies.specs.Four.{four_replies_call, four_replies_grouped_call};
ghost use Rattle.four_replies.specs.Left.{VisitReady, VisitLeft};

use files::buffer::clear;
use files::numbered::Numbered;
use groups::table::our_groups;
use visits::numbered::reply;
use visits::outputs::{pack, shortest};
use visits::whole::check;

const VISIT_PATHS: usize = 4;

// The paths one after another, where `whole` is what the checks of the whole come to. Gives their numbers in one.
fn replies<N: Numbered>(
    whole: N,
    part: &[u8],
    groups: &[u8],
    paths: &[u8],
    out1: &mut [u8],
    out2: &mut [u8],
    out3: &mut [u8],
    out4: &mut [u8],
    work: &mut [u8],
) -> u32
    requires { VisitReady (length out1.old ∷ length out2.old ∷ length out3.old ∷ length out4.old ∷ []) (length work.old) part.now groups.now paths.now (N.number whole) }
    ensures { VisitLeft (length out1.old ∷ length out2.old ∷ length out3.old ∷ length out4.old ∷ [])
        (length work.old) part.now groups.now paths.now
        result (out1.new ∷ out2.new ∷ out3.new ∷ out4.new ∷ []) }
{
    let a = reply(whole, part, groups, paths, 0, out1, work);
    let b = reply(whole, part, groups, paths, 1, out2, work);
    let c = reply(whole, part, groups, paths, 2, out3, work);
    let d = reply(whole, part, groups, paths, 3, out4, work);
    pack(a, b, c, d)
}

// The call, with the customer's groups.
pub fn four_replies_grouped(
    part: &[u8],
    groups: &[u8],
    paths: &[u8],
    out1: &mut [u8],
    out2: &mut [u8],
    out3: &mut [u8],
    out4: &mut [u8],
    work: &mut [u8],
) -> u32
    ensures { left_several result (out1.new ∷ out2.new ∷ out3.new ∷ out4.new ∷ []) work.new
        ≡ four_replies_grouped_call (length out1.old ∷ length out2.old ∷ length out3.old ∷ length out4.old ∷ [])
        (length work.old) part.now groups.now paths.now }
{
    let out = shortest(out1.len(), out2.len(), out3.len(), out4.len());
    let whole = check(part, groups, paths, VISIT_PATHS, out, work.len());
    let numbers = replies(whole, part, groups, paths, out1, out2, out3, out4, work);
    clear(work);
    numbers
}

// Without groups: the same with our own.
pub fn four_replies(
    part: &[u8],
    paths: &[u8],
    out1: &mut [u8],
    out2: &mut [u8],
    out3: &mut [u8],
    out4: &mut [u8],
    work: &mut [u8],
) -> u32
    ensures { left_several result (out1.new ∷ out2.new ∷ out3.new ∷ out4.new ∷ []) work.new
        ≡ four_replies_call (length out1.old ∷ length out2.old ∷ length out3.old ∷ length out4.old ∷ [])
        (length work.old) part.now paths.now }
{
    let ours = our_groups();
    four_replies_grouped(part, &ours, paths, out1, out2, out3, out4, work)
}
