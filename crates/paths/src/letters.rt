// The positions of an expression, from 1 on, each with the labels that it reads: those of an interval, or those outside.
ghost use Rattle.std.specs.Prelude.{◌≡◌, [], ℕ, ◌<◌};
ghost use Rattle.sets.specs.States.{has_state};
ghost use Rattle.paths.specs.Letters.{reads, AddedLabel, Labelled};

use super::operand::only;
use labels::interval::{Interval, LabelSet, holds};
use sets::states::{StateSet, with};

#[derive(Clone, Copy)]
pub struct Letters {
    pub intervals: [Interval; 16],
    pub positions: u16,
    pub outside: u16,
    pub n: u32,
}

pub fn none() -> Letters
    ensures { Labelled result [] }
{
    Letters {
        intervals: [Interval { low: 0, high: 0 }; 16],
        positions: 0,
        outside: 0,
        n: 0,
    }
}

// One more position, which reads the labels of s.
pub fn add(l: Letters, s: LabelSet) -> Letters
    requires { l.n < 15 }
    ensures { AddedLabel l s result }
{
    let mut r = l;
    let p = l.n + 1;
    let at = p as usize;
    let i = s.interval;
    r.intervals[at] = i;
    r.positions = with(l.positions, p);
    r.outside = l.outside | only(s.outside, with(0, p));
    r.n = p;
    r
}

// The positions that read a label: those of labels outside an interval, and then each turned round whose interval holds the label.
pub fn mask(l: Letters, label: u32) -> u16
    ensures { (p : ℕ) → has_state result p ≡ reads l label p }
{
    let mut r = l.outside & l.positions;
    for p in StateSet(l.positions) {
        let i = l.intervals[p as usize];
        r = r ^ only(holds(i, label), with(0, p));
    }
    r
}
