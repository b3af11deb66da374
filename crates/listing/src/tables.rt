// The tables of a search, read by position.
ghost use Rattle.std.specs.Prelude.{◌≡◌, ◌<◌, ◌≤◌, length};
ghost use Rattle.files.specs.Limits.{part_words, work_bytes};
ghost use Rattle.slots.specs.Slots.{reached_of, place_of};

use sets::table::get16;
use slots::tables::{PLACE, REACHED};

// The states that the slot at position i was reached in.
pub fn states_at(work: &[u8], i: usize) -> u16
    requires { (i < part_words) × (work_bytes ≤ length work.now) }
    ensures { result ≡ reached_of work.now i }
{
    get16(work, REACHED, i)
}

// The slot in place k.
pub fn place_at(work: &[u8], k: usize) -> usize
    requires { (k < part_words) × (work_bytes ≤ length work.now) }
    ensures { result ≡ place_of work.now k }
{
    get16(work, PLACE, k) as usize
}
