// Which numbers of doors, outside targets and labels are accepted.
ghost use Rattle.std.specs.Prelude.{◌≡◌, ◌&&◌, ◌+◌, ◌*◌, ◌^◌, ◌<◌, leb};
ghost use Rattle.files.specs.Refusal.{number};
ghost use Rattle.files.specs.Limits.{part_words};
ghost use Rattle.dearest.specs.Dearest.{counts_check};

use files::limits::PART_WORDS;
use files::refusal::{Refusal, ensure};

// How many doors, outside targets and labels there are.
#[derive(Clone, Copy)]
pub struct Counts {
    pub doors: u32,
    pub targets: u32,
    pub labels: u32,
}

// Labels of a path: a state has four bits, and state 0 is no label's.
const MOST_LABELS: u32 = 15;

// Doors and targets together: a node's number has sixteen bits.
const MOST_NODES: u64 = 65536;

// Words of the part.
const MOST_WORDS: u64 = PART_WORDS as u64;

// Whether the part has numbers for its nodes and is within its limit. Sixty-four bits hold every sum and product of two 32-bit numbers.
fn part_fits(doors: u64, targets: u64) -> bool
    requires { (doors < 2 ^ 32) × (targets < 2 ^ 32) }
    ensures { result ≡ (leb (doors + targets) 65536 && leb (1 + doors * (1 + targets)) part_words) }
{
    (doors + targets <= MOST_NODES) & (1 + doors * (1 + targets) <= MOST_WORDS)
}

// 21: a zero, too many labels, or a part that does not fit.
pub fn check_counts(counts: Counts) -> Result<(), Refusal>
    ensures { number result ≡ counts_check counts.doors counts.targets counts.labels }
{
    let some = (0 < counts.doors) & (0 < counts.targets) & (0 < counts.labels);
    let fits = part_fits(u64::from(counts.doors), u64::from(counts.targets));
    ensure(
        some & (counts.labels <= MOST_LABELS) & fits,
        Refusal::WrongDemands,
    )
}
