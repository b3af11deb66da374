// The question's way: parts, and two trips over them.
ghost use Rattle.std.specs.Prelude.{◌≡◌, ◌≤◌, ◌<◌, length, take, IfOk};
ghost use Rattle.asking.specs.Run.{told, said, slot, slots, site_asked, bundled, round_trip, part_in, parts_in, rooms, answer};

use crate::calls::{hub_file, site_file};
use crate::file::tell;
use bundles::bundle::Trip;
use files::limits::REPLY_WORDS;
use mowqachi::mowqachi_cut;
use path_bundles::split::file_in;
use sets::states::StateSet;
use std::io::Stdout;

// The bytes of an output for a part or a reply.
const SLOT: usize = 4 * REPLY_WORDS;
// Room for a reply of each of sixteen sites, wherever the ones before it end.
pub const SLOTS: usize = 16 * SLOT;

fn cut_part(
    to: Stdout,
    whole: &[u8],
    cuts: &[u8],
    site: u32,
    out: &mut [u8],
    work: &mut [u8],
) -> Result<usize, u32> {
    let number = mowqachi_cut(whole, cuts, site, out, work);
    tell(to, number, out)
}

// Each site's part, at the site's own place, to the first refusal.
pub fn cut_parts(
    to: Stdout,
    whole: &[u8],
    cuts: &[u8],
    sites: u16,
    parts: &mut [u8],
    work: &mut [u8],
) -> Result<(), u32>
    requires { slots ≤ length parts.old }
    ensures { slots ≤ length parts.new }
{
    for site in StateSet(sites) {
        let at = site as usize * SLOT;
        let end = at + SLOT;
        cut_part(to, whole, cuts, site, &mut parts[at..end], work)?;
    }
    Ok(())
}

// A site's part, at its place.
fn part_of(parts: &[u8], site: u32) -> &[u8]
    requires { (slots ≤ length parts.now) × (site < 16) }
    ensures { result.now ≡ part_in parts.now site }
{
    let at = site as usize * SLOT;
    let end = at + SLOT;
    file_in(&parts[at..end])
}

// The replies of a trip, one after another.
fn gather(
    to: Stdout,
    trip: Trip,
    path: &[u8],
    calls: &[u8],
    sites: u16,
    parts: &[u8],
    bundle: &mut [u8],
    work: &mut [u8],
) -> Result<usize, u32>
    requires { (slots ≤ length parts.now) × (slots ≤ length bundle.old) }
    ensures is { told result bundle.new
        ≡ said (bundled (site_asked trip path.now calls.now slot (length work.old)) (parts_in parts.now sites)) }
    ensures within { IfOk result (λ end. end ≤ length bundle.new) }
{
    let mut end = 0;
    for site in StateSet(sites) {
        let next = end + SLOT;
        let part = part_of(parts, site);
        end += site_file(to, trip, part, path, calls, &mut bundle[end..next], work)?;
    }
    Ok(end)
}

// To the sites and back to the hub. `list` holds the calls at its front, and then what the hub makes of the replies.
fn round_trip(
    to: Stdout,
    trip: Trip,
    path: &[u8],
    called: usize,
    sites: u16,
    parts: &[u8],
    bundle: &mut [u8],
    list: &mut [u8],
    work: &mut [u8],
) -> Result<usize, u32>
    requires { (slots ≤ length parts.now) × (slots ≤ length bundle.old) × (called ≤ length list.old) }
    ensures is { told result list.new
        ≡ said (round_trip trip path.now (take called list.old) (length list.old) (length work.old)
        (parts_in parts.now sites)) }
    ensures within { IfOk result (λ end. end ≤ length list.new) }
{
    let end = gather(to, trip, path, &list[..called], sites, parts, bundle, work)?;
    hub_file(to, trip, &bundle[..end], list, work)
}

// The question over the parts. `list` holds the call list, and then the final list.
pub fn ask(
    to: Stdout,
    path: &[u8],
    sites: u16,
    parts: &[u8],
    bundle: &mut [u8],
    list: &mut [u8],
    work: &mut [u8],
) -> Result<usize, u32>
    requires { (slots ≤ length parts.now) × (slots ≤ length bundle.old) }
    ensures { told result list.new
        ≡ said (answer (rooms (length list.old) (length work.old))
        path.now (parts_in parts.now sites)) }
{
    let called = round_trip(to, Trip::First, path, 0, sites, parts, bundle, list, work)?;
    round_trip(
        to,
        Trip::Second,
        path,
        called,
        sites,
        parts,
        bundle,
        list,
        work,
    )
}
