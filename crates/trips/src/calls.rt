// The calls of a trip, at a site and at the hub.
ghost use Rattle.std.specs.Prelude.{◌≡◌, length};
ghost use Rattle.files.specs.Outcome.{left, leaves};
ghost use Rattle.trips.specs.Calls.{site_call, hub_call};

use bundles::bundle::Trip;
use mowqachi::{mowqachi_call_list, mowqachi_first_reply, mowqachi_join, mowqachi_second_reply};

// A site learns the calls on the second trip only.
pub fn site_call(
    trip: Trip,
    part: &[u8],
    path: &[u8],
    calls: &[u8],
    out: &mut [u8],
    work: &mut [u8],
) -> u32
    ensures { left result out.new work.new
        ≡ leaves (site_call trip path.now calls.now part.now (length out.old) (length work.old))
        (length out.old) (length work.old) }
{
    match trip {
        Trip::First => mowqachi_first_reply(part, path, out, work),
        Trip::Second => mowqachi_second_reply(part, path, calls, out, work),
    }
}

pub fn hub_call(trip: Trip, bundle: &[u8], out: &mut [u8], work: &mut [u8]) -> u32
    ensures { left result out.new work.new
        ≡ leaves (hub_call trip bundle.now (length out.old) (length work.old))
        (length out.old) (length work.old) }
{
    match trip {
        Trip::First => mowqachi_call_list(bundle, out, work),
        Trip::Second => mowqachi_join(bundle, out, work),
    }
}
