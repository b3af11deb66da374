// A set of nodes in lent bytes: 8,192 bytes from `base` on, node x as bit x % 16 of the sixteen-bit number x / 16.
ghost use Rattle.std.specs.Prelude.{◌≡◌, ◌+◌, ◌≤◌, ◌<◌, length};
ghost use Rattle.sets.specs.NodeSet.{has_node, Added, node_set_bytes};

use crate::states::{has as has_state, with};
use crate::table::{get16, put16};

// The numbers of sixteen bits of a set.
pub const NODE_CELLS: usize = 4096;

pub fn has(work: &[u8], base: usize, x: u32) -> bool
    requires { (base + node_set_bytes ≤ length work.now) × (x < 65536) }
    ensures { result ≡ has_node work.now base x }
{
    let cell = (x / 16) as usize;
    has_state(get16(work, base, cell), x % 16)
}

pub fn add(work: &mut [u8], base: usize, x: u32)
    requires { (base + node_set_bytes ≤ length work.old) × (x < 65536) }
    ensures { Added base x work.old work.new }
{
    let cell = (x / 16) as usize;
    let v = with(get16(work, base, cell), x % 16);
    put16(work, base, cell, v);
}
