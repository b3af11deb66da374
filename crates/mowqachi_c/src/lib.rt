// The calls for C: each is the library's of the same name, with the same clauses.
#![tactic(auto)]

ghost use Rattle.std.specs.Prelude.{◌≡◌, [], ◌∷◌, length};
ghost use Rattle.files.specs.Outcome.{left, leaves, left_lent, leaves_lent};
ghost use Rattle.path_bundles.specs.Packed.{left_several};
ghost use Rattle.site_first.specs.First.{first_reply_call, first_reply_grouped_call};
ghost use Rattle.four_replies.specs.Four.{four_replies_call, four_replies_grouped_call};
ghost use Rattle.eight_replies.specs.Eight.{eight_replies_call, eight_replies_grouped_call};
ghost use Rattle.site_second.specs.Second.{second_reply_call, second_reply_grouped_call};
ghost use Rattle.hub_calls.specs.CallList.{call_list_call};
ghost use Rattle.hub_join.specs.Join.{join_call};
ghost use Rattle.old.specs.Old.{old_search_call, old_search_grouped_call};
ghost use Rattle.cutter.specs.Cut.{cut_call};
ghost use Rattle.dearest.specs.Dearest.{left_both, dearest_call};
ghost use Rattle.generator.specs.Generate.{spent, generate_call};
ghost use Rattle.from_triples.specs.From.{from_call};
ghost use Rattle.to_triples.specs.To.{leaves_counted};
ghost use Rattle.walk_find.specs.Walk.{walk_call, walk_grouped_call};
ghost use Rattle.walk_check.specs.Check.{leaves_checked, leaves_checked_grouped};

#[unsafe(no_mangle)]
pub extern "C" fn mowqachi_old_search(
    whole: &[u8],
    path: &[u8],
    out: &mut [u8],
    work: &mut [u8],
) -> u32
    ensures { left result out.new work.new
        ≡ leaves (old_search_call (length out.old) (length work.old) whole.now path.now)
        (length out.old) (length work.old) }
{
    mowqachi::mowqachi_old_search(whole, path, out, work)
}

#[unsafe(no_mangle)]
pub extern "C" fn mowqachi_cut(
    whole: &[u8],
    cuts: &[u8],
    site: u32,
    out: &mut [u8],
    work: &mut [u8],
) -> u32
    ensures { left result out.new work.new
        ≡ leaves (cut_call (length out.old) (length work.old) whole.now cuts.now site)
        (length out.old) (length work.old) }
{
    mowqachi::mowqachi_cut(whole, cuts, site, out, work)
}

#[unsafe(no_mangle)]
pub extern "C" fn mowqachi_first_reply(
    part: &[u8],
    path: &[u8],
    out: &mut [u8],
    work: &mut [u8],
) -> u32
    ensures { left result out.new work.new
        ≡ leaves (first_reply_call (length out.old) (length work.old) part.now path.now)
        (length out.old) (length work.old) }
{
    mowqachi::mowqachi_first_reply(part, path, out, work)
}

#[unsafe(no_mangle)]
pub extern "C" fn mowqachi_call_list(bundle: &[u8], out: &mut [u8], work: &mut [u8]) -> u32
    ensures { left result out.new work.new
        ≡ leaves (call_list_call (length out.old) (length work.old) bundle.now)
        (length out.old) (length work.old) }
{
    mowqachi::mowqachi_call_list(bundle, out, work)
}

#[unsafe(no_mangle)]
pub extern "C" fn mowqachi_second_reply(
    part: &[u8],
    path: &[u8],
    calls: &[u8],
    out: &mut [u8],
    work: &mut [u8],
) -> u32
    ensures { left result out.new work.new
        ≡ leaves (second_reply_call (length out.old) (length work.old) part.now path.now calls.now)
        (length out.old) (length work.old) }
{
    mowqachi::mowqachi_second_reply(part, path, calls, out, work)
}

#[unsafe(no_mangle)]
pub extern "C" fn mowqachi_join(bundle: &[u8], out: &mut [u8], work: &mut [u8]) -> u32
    ensures { left result out.new work.new
        ≡ leaves (join_call (length out.old) (length work.old) bundle.now)
        (length out.old) (length work.old) }
{
    mowqachi::mowqachi_join(bundle, out, work)
}

#[unsafe(no_mangle)]
pub extern "C" fn mowqachi_old_search_grouped(
    whole: &[u8],
    groups: &[u8],
    path: &[u8],
    out: &mut [u8],
    work: &mut [u8],
) -> u32
    ensures { left result out.new work.new
        ≡ leaves (old_search_grouped_call (length out.old) (length work.old) whole.now groups.now path.now)
        (length out.old) (length work.old) }
{
    mowqachi::mowqachi_old_search_grouped(whole, groups, path, out, work)
}

#[unsafe(no_mangle)]
pub extern "C" fn mowqachi_first_reply_grouped(
    part: &[u8],
    groups: &[u8],
    path: &[u8],
    out: &mut [u8],
    work: &mut [u8],
) -> u32
    ensures { left result out.new work.new
        ≡ leaves (first_reply_grouped_call (length out.old) (length work.old) part.now groups.now path.now)
        (length out.old) (length work.old) }
{
    mowqachi::mowqachi_first_reply_grouped(part, groups, path, out, work)
}

#[unsafe(no_mangle)]
pub extern "C" fn mowqachi_second_reply_grouped(
    part: &[u8],
    groups: &[u8],
    path: &[u8],
    calls: &[u8],
    out: &mut [u8],
    work: &mut [u8],
) -> u32
    ensures { left result out.new work.new
        ≡ leaves (second_reply_grouped_call (length out.old) (length work.old) part.now groups.now path.now calls.now)
        (length out.old) (length work.old) }
{
    mowqachi::mowqachi_second_reply_grouped(part, groups, path, calls, out, work)
}

#[unsafe(no_mangle)]
pub extern "C" fn mowqachi_dearest(
    doors: u32,
    targets: u32,
    labels: u32,
    part: &mut [u8],
    path: &mut [u8],
    work: &mut [u8],
) -> u32
    ensures { left_both result part.new path.new work.new
        ≡ dearest_call (length part.old) (length path.old) (length work.old) doors targets labels }
{
    mowqachi::mowqachi_dearest(doors, targets, labels, part, path, work)
}

#[unsafe(no_mangle)]
pub extern "C" fn mowqachi_generate(
    state: &mut u32,
    nodes: u32,
    edges: u32,
    out: &mut [u8],
    work: &mut [u8],
) -> u32
    ensures { left_lent state.new (left result out.new work.new)
        ≡ leaves_lent (generate_call (length out.old) (length work.old) state.old nodes edges)
        state.old (spent state.old nodes edges) (length out.old) (length work.old) }
{
    mowqachi::mowqachi_generate(state, nodes, edges, out, work)
}

#[unsafe(no_mangle)]
pub extern "C" fn mowqachi_four_replies(
    part: &[u8],
    paths: &[u8],
    out1: &mut [u8],
    out2: &mut [u8],
    out3: &mut [u8],
    out4: &mut [u8],
    work: &mut [u8],
) -> u32
    ensures { left_several result (out1.new ∷ out2.new ∷ out3.new ∷ out4.new ∷ []) work.new
        ≡ four_replies_call (length out1.old ∷ length out2.old ∷ length out3.old ∷ length out4.old ∷ [])
        (length work.old) part.now paths.now }
{
    mowqachi::mowqachi_four_replies(part, paths, out1, out2, out3, out4, work)
}

#[unsafe(no_mangle)]
pub extern "C" fn mowqachi_four_replies_grouped(
    part: &[u8],
    groups: &[u8],
    paths: &[u8],
    out1: &mut [u8],
    out2: &mut [u8],
    out3: &mut [u8],
    out4: &mut [u8],
    work: &mut [u8],
) -> u32
    ensures { left_several result (out1.new ∷ out2.new ∷ out3.new ∷ out4.new ∷ []) work.new
        ≡ four_replies_grouped_call (length out1.old ∷ length out2.old ∷ length out3.old ∷ length out4.old ∷ [])
        (length work.old) part.now groups.now paths.now }
{
    mowqachi::mowqachi_four_replies_grouped(part, groups, paths, out1, out2, out3, out4, work)
}

#[unsafe(no_mangle)]
pub extern "C" fn mowqachi_eight_replies(
    part: &[u8],
    paths: &[u8],
    out: &mut [u8],
    work: &mut [u8],
) -> u64
    ensures { left result out.new work.new
        ≡ eight_replies_call (length out.old) (length work.old) part.now paths.now }
{
    mowqachi::mowqachi_eight_replies(part, paths, out, work)
}

#[unsafe(no_mangle)]
pub extern "C" fn mowqachi_eight_replies_grouped(
    part: &[u8],
    groups: &[u8],
    paths: &[u8],
    out: &mut [u8],
    work: &mut [u8],
) -> u64
    ensures { left result out.new work.new
        ≡ eight_replies_grouped_call (length out.old) (length work.old) part.now groups.now paths.now }
{
    mowqachi::mowqachi_eight_replies_grouped(part, groups, paths, out, work)
}

#[unsafe(no_mangle)]
pub extern "C" fn mowqachi_from_triples(triples: &[u8], out: &mut [u8], work: &mut [u8]) -> u32
    ensures { left result out.new work.new
        ≡ leaves (from_call (length out.old) (length work.old) triples.now)
        (length out.old) (length work.old) }
{
    mowqachi::mowqachi_from_triples(triples, out, work)
}

#[unsafe(no_mangle)]
pub extern "C" fn mowqachi_to_triples(
    whole: &[u8],
    out: &mut [u8],
    count: &mut u32,
    work: &mut [u8],
) -> u32
    ensures { left_lent count.new (left result out.new work.new)
        ≡ leaves_counted (length out.old) (length work.old) whole.now }
{
    mowqachi::mowqachi_to_triples(whole, out, count, work)
}

#[unsafe(no_mangle)]
pub extern "C" fn mowqachi_walk(
    whole: &[u8],
    path: &[u8],
    node: u32,
    out: &mut [u8],
    work: &mut [u8],
) -> u32
    ensures { left result out.new work.new
        ≡ leaves (walk_call (length out.old) (length work.old) whole.now path.now node)
        (length out.old) (length work.old) }
{
    mowqachi::mowqachi_walk(whole, path, node, out, work)
}

#[unsafe(no_mangle)]
pub extern "C" fn mowqachi_walk_grouped(
    whole: &[u8],
    groups: &[u8],
    path: &[u8],
    node: u32,
    out: &mut [u8],
    work: &mut [u8],
) -> u32
    ensures { left result out.new work.new
        ≡ leaves (walk_grouped_call (length out.old) (length work.old) whole.now groups.now path.now node)
        (length out.old) (length work.old) }
{
    mowqachi::mowqachi_walk_grouped(whole, groups, path, node, out, work)
}

#[unsafe(no_mangle)]
pub extern "C" fn mowqachi_check_walk(
    whole: &[u8],
    path: &[u8],
    node: u32,
    walk: &[u8],
    yes: &mut u32,
    work: &mut [u8],
) -> u32
    ensures { left_lent yes.new (left result [] work.new)
        ≡ leaves_checked (length work.old) whole.now path.now node walk.now }
{
    mowqachi::mowqachi_check_walk(whole, path, node, walk, yes, work)
}

#[unsafe(no_mangle)]
pub extern "C" fn mowqachi_check_walk_grouped(
    whole: &[u8],
    groups: &[u8],
    path: &[u8],
    node: u32,
    walk: &[u8],
    yes: &mut u32,
    work: &mut [u8],
) -> u32
    ensures { left_lent yes.new (left result [] work.new)
        ≡ leaves_checked_grouped (length work.old) whole.now groups.now path.now node walk.now }
{
    mowqachi::mowqachi_check_walk_grouped(whole, groups, path, node, walk, yes, work)
}
