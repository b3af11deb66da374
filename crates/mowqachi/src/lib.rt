// The calls, under the names that the C host uses. Each has no precondition, and its contract is one equation: what it leaves in number,
// outputs, lent number and working buffer is what the definition of document 01 or 02 gives. Demand 3 (demands/proofs/Demand.antt) is about these outcomes.
#![tactic(auto)]

ghost use Rattle.std.specs.Prelude.{◌≡◌, [], ◌∷◌, length};
ghost use Rattle.files.specs.Outcome.{left, leaves, left_lent, leaves_lent};
ghost use Rattle.path_bundles.specs.Packed.{left_several};
ghost use Rattle.site_first.specs.First.{first_reply_call, first_reply_grouped_call};
ghost use Rattle.four_replies.specs.Four.{four_replies_call, four_replies_grouped_call};
ghost use Rattle.eight_replies.specs.Eight.{eight_replies_call, eight_replies_grouped_call};
ghost use Rattle.site_second.specs.Second.{second_reply_call, second_reply_grouped_call};
ghost use Rattle.hub_calls.specs.CallList.{call_list_call};
ghost use Rattle.hub_join.specs.Join.{join_call};
ghost use Rattle.old.specs.Old.{old_search_call, old_search_grouped_call};
ghost use Rattle.cutter.specs.Cut.{cut_call};
ghost use Rattle.dearest.specs.Dearest.{left_both, dearest_call};
ghost use Rattle.generator.specs.Generate.{spent, generate_call};
ghost use Rattle.from_triples.specs.From.{from_call};
ghost use Rattle.to_triples.specs.To.{leaves_counted};
ghost use Rattle.walk_find.specs.Walk.{walk_call, walk_grouped_call};
ghost use Rattle.walk_check.specs.Check.{leaves_checked, leaves_checked_grouped};

use cutter::call::cut;
use dearest::call::dearest;
use eight_replies::call::{eight_replies, eight_replies_grouped};
use four_replies::call::{four_replies, four_replies_grouped};
use from_triples::call::from_triples;
use generator::call::generate;
use hub_calls::call::call_list;
use hub_join::call::join;
use old::call::{old_search, old_search_grouped};
use site_first::call::{first_reply, first_reply_grouped};
use site_second::call::{second_reply, second_reply_grouped};
use to_triples::call::to_triples;
use walk_check::call::{check_walk, check_walk_grouped};
use walk_find::call::{walk, walk_grouped};

#[unsafe(no_mangle)]
pub extern "C" fn mowqachi_old_search(
    whole: &[u8],
    path: &[u8],
    out: &mut [u8],
    work: &mut [u8],
) -> u32
    ensures { left result out.new work.new
        ≡ leaves (old_search_call (length out.old) (length work.old) whole.now path.now)
        (length out.old) (length work.old) }
{
    old_search(whole, path, out, work)
}

#[unsafe(no_mangle)]
pub extern "C" fn mowqachi_cut(
    whole: &[u8],
    cuts: &[u8],
    site: u32,
    out: &mut [u8],
    work: &mut [u8],
) -> u32
    ensures { left result out.new work.new
        ≡ leaves (cut_call (length out.old) (length work.old) whole.now cuts.now site)
        (length out.old) (length work.old) }
{
    cut(whole, cuts, site, out, work)
}

#[unsafe(no_mangle)]
pub extern "C" fn mowqachi_first_reply(
    part: &[u8],
    path: &[u8],
    out: &mut [u8],
    work: &mut [u8],
) -> u32
    ensures { left result out.new work.new
        ≡ leaves (first_reply_call (length out.old) (length work.old) part.now path.now)
        (length out.old) (length work.old) }
{
    first_reply(part, path, out, work)
}

#[unsafe(no_mangle)]
pub extern "C" fn mowqachi_call_list(bundle: &[u8], out: &mut [u8], work: &mut [u8]) -> u32
    ensures { left result out.new work.new
        ≡ leaves (call_list_call (length out.old) (length work.old) bundle.now)
        (length out.old) (length work.old) }
{
    call_list(bundle, out, work)
}

#[unsafe(no_mangle)]
pub extern "C" fn mowqachi_second_reply(
    part: &[u8],
    path: &[u8],
    calls: &[u8],
    out: &mut [u8],
    work: &mut [u8],
) -> u32
    ensures { left result out.new work.new
        ≡ leaves (second_reply_call (length out.old) (length work.old) part.now path.now calls.now)
        (length out.old) (length work.old) }
{
    second_reply(part, path, calls, out, work)
}

#[unsafe(no_mangle)]
pub extern "C" fn mowqachi_join(bundle: &[u8], out: &mut [u8], work: &mut [u8]) -> u32
    ensures { left result out.new work.new
        ≡ leaves (join_call (length out.old) (length work.old) bundle.now)
        (length out.old) (length work.old) }
{
    join(bundle, out, work)
}

#[unsafe(no_mangle)]
pub extern "C" fn mowqachi_old_search_grouped(
    whole: &[u8],
    groups: &[u8],
    path: &[u8],
    out: &mut [u8],
    work: &mut [u8],
) -> u32
    ensures { left result out.new work.new
        ≡ leaves (old_search_grouped_call (length out.old) (length work.old) whole.now groups.now path.now)
        (length out.old) (length work.old) }
{
    old_search_grouped(whole, groups, path, out, work)
}

#[unsafe(no_mangle)]
pub extern "C" fn mowqachi_first_reply_grouped(
    part: &[u8],
    groups: &[u8],
    path: &[u8],
    out: &mut [u8],
    work: &mut [u8],
) -> u32
    ensures { left result out.new work.new
        ≡ leaves (first_reply_grouped_call (length out.old) (length work.old) part.now groups.now path.now)
        (length out.old) (length work.old) }
{
    first_reply_grouped(part, groups, path, out, work)
}

#[unsafe(no_mangle)]
pub extern "C" fn mowqachi_second_reply_grouped(
    part: &[u8],
    groups: &[u8],
    path: &[u8],
    calls: &[u8],
    out: &mut [u8],
    work: &mut [u8],
) -> u32
    ensures { left result out.new work.new
        ≡ leaves (second_reply_grouped_call (length out.old) (length work.old) part.now groups.now path.now calls.now)
        (length out.old) (length work.old) }
{
    second_reply_grouped(part, groups, path, calls, out, work)
}

#[unsafe(no_mangle)]
pub extern "C" fn mowqachi_dearest(
    doors: u32,
    targets: u32,
    labels: u32,
    part: &mut [u8],
    path: &mut [u8],
    work: &mut [u8],
) -> u32
    ensures { left_both result part.new path.new work.new
        ≡ dearest_call (length part.old) (length path.old) (length work.old) doors targets labels }
{
    dearest(doors, targets, labels, part, path, work)
}

#[unsafe(no_mangle)]
pub extern "C" fn mowqachi_generate(
    state: &mut u32,
    nodes: u32,
    edges: u32,
    out: &mut [u8],
    work: &mut [u8],
) -> u32
    ensures { left_lent state.new (left result out.new work.new)
        ≡ leaves_lent (generate_call (length out.old) (length work.old) state.old nodes edges)
        state.old (spent state.old nodes edges) (length out.old) (length work.old) }
{
    generate(state, nodes, edges, out, work)
}

#[unsafe(no_mangle)]
pub extern "C" fn mowqachi_four_replies(
    part: &[u8],
    paths: &[u8],
    out1: &mut [u8],
    out2: &mut [u8],
    out3: &mut [u8],
    out4: &mut [u8],
    work: &mut [u8],
) -> u32
    ensures { left_several result (out1.new ∷ out2.new ∷ out3.new ∷ out4.new ∷ []) work.new
        ≡ four_replies_call (length out1.old ∷ length out2.old ∷ length out3.old ∷ length out4.old ∷ [])
        (length work.old) part.now paths.now }
{
    four_replies(part, paths, out1, out2, out3, out4, work)
}

#[unsafe(no_mangle)]
pub extern "C" fn mowqachi_four_replies_grouped(
    part: &[u8],
    groups: &[u8],
    paths: &[u8],
    out1: &mut [u8],
    out2: &mut [u8],
    out3: &mut [u8],
    out4: &mut [u8],
    work: &mut [u8],
) -> u32
    ensures { left_several result (out1.new ∷ out2.new ∷ out3.new ∷ out4.new ∷ []) work.new
        ≡ four_replies_grouped_call (length out1.old ∷ length out2.old ∷ length out3.old ∷ length out4.old ∷ [])
        (length work.old) part.now groups.now paths.now }
{
    four_replies_grouped(part, groups, paths, out1, out2, out3, out4, work)
}

#[unsafe(no_mangle)]
pub extern "C" fn mowqachi_eight_replies(
    part: &[u8],
    paths: &[u8],
    out: &mut [u8],
    work: &mut [u8],
) -> u64
    ensures { left result out.new work.new
        ≡ eight_replies_call (length out.old) (length work.old) part.now paths.now }
{
    eight_replies(part, paths, out, work)
}

#[unsafe(no_mangle)]
pub extern "C" fn mowqachi_eight_replies_grouped(
    part: &[u8],
    groups: &[u8],
    paths: &[u8],
    out: &mut [u8],
    work: &mut [u8],
) -> u64
    ensures { left result out.new work.new
        ≡ eight_replies_grouped_call (length out.old) (length work.old) part.now groups.now paths.now }
{
    eight_replies_grouped(part, groups, paths, out, work)
}

#[unsafe(no_mangle)]
pub extern "C" fn mowqachi_from_triples(triples: &[u8], out: &mut [u8], work: &mut [u8]) -> u32
    ensures { left result out.new work.new
        ≡ leaves (from_call (length out.old) (length work.old) triples.now)
        (length out.old) (length work.old) }
{
    from_triples(triples, out, work)
}

#[unsafe(no_mangle)]
pub extern "C" fn mowqachi_to_triples(
    whole: &[u8],
    out: &mut [u8],
    count: &mut u32,
    work: &mut [u8],
) -> u32
    ensures { left_lent count.new (left result out.new work.new)
        ≡ leaves_counted (length out.old) (length work.old) whole.now }
{
    to_triples(whole, out, count, work)
}

#[unsafe(no_mangle)]
pub extern "C" fn mowqachi_walk(
    whole: &[u8],
    path: &[u8],
    node: u32,
    out: &mut [u8],
    work: &mut [u8],
) -> u32
    ensures { left result out.new work.new
        ≡ leaves (walk_call (length out.old) (length work.old) whole.now path.now node)
        (length out.old) (length work.old) }
{
    walk(whole, path, node, out, work)
}

#[unsafe(no_mangle)]
pub extern "C" fn mowqachi_walk_grouped(
    whole: &[u8],
    groups: &[u8],
    path: &[u8],
    node: u32,
    out: &mut [u8],
    work: &mut [u8],
) -> u32
    ensures { left result out.new work.new
        ≡ leaves (walk_grouped_call (length out.old) (length work.old) whole.now groups.now path.now node)
        (length out.old) (length work.old) }
{
    walk_grouped(whole, groups, path, node, out, work)
}

#[unsafe(no_mangle)]
pub extern "C" fn mowqachi_check_walk(
    whole: &[u8],
    path: &[u8],
    node: u32,
    walk: &[u8],
    yes: &mut u32,
    work: &mut [u8],
) -> u32
    ensures { left_lent yes.new (left result [] work.new)
        ≡ leaves_checked (length work.old) whole.now path.now node walk.now }
{
    check_walk(whole, path, node, walk, yes, work)
}

#[unsafe(no_mangle)]
pub extern "C" fn mowqachi_check_walk_grouped(
    whole: &[u8],
    groups: &[u8],
    path: &[u8],
    node: u32,
    walk: &[u8],
    yes: &mut u32,
    work: &mut [u8],
) -> u32
    ensures { left_lent yes.new (left result [] work.new)
        ≡ leaves_checked_grouped (length work.old) whole.now groups.now path.now node walk.now }
{
    check_walk_grouped(whole, groups, path, node, walk, yes, work)
}
