// What the calls of a trip hand on. Each file is printed to `to`.
ghost use Rattle.std.specs.Prelude.{◌≡◌, ◌≤◌, length, IfOk};
ghost use Rattle.asking.specs.Run.{told, said, site_asked, hub_asked};

use crate::file::tell;
use bundles::bundle::Trip;
use std::io::Stdout;
use trips::calls::{hub_call, site_call};

// A site's reply.
pub fn site_file(
    to: Stdout,
    trip: Trip,
    part: &[u8],
    path: &[u8],
    calls: &[u8],
    out: &mut [u8],
    work: &mut [u8],
) -> Result<usize, u32>
    ensures is { told result out.new
        ≡ said (site_asked trip path.now calls.now (length out.old) (length work.old) part.now) }
    ensures within { IfOk result (λ end. end ≤ length out.new) }
{
    let number = site_call(trip, part, path, calls, out, work);
    tell(to, number, out)
}

// The hub's list.
pub fn hub_file(
    to: Stdout,
    trip: Trip,
    bundle: &[u8],
    out: &mut [u8],
    work: &mut [u8],
) -> Result<usize, u32>
    ensures is { told result out.new
        ≡ said (hub_asked trip (length out.old) (length work.old) bundle.now) }
    ensures within { IfOk result (λ end. end ≤ length out.new) }
{
    let number = hub_call(trip, bundle, out, work);
    tell(to, number, out)
}
