// The labels of a position: those of an interval, from a low to a high end, or those outside.
ghost use Rattle.std.specs.Prelude.{◌≡◌};
ghost use Rattle.labels.specs.Interval.{within, group_interval, label_set};

use files::expr::{Label, high, low};

#[derive(Clone, Copy)]
pub struct Interval {
    pub low: u16,
    pub high: u16,
}

#[derive(Clone, Copy)]
pub struct LabelSet {
    pub interval: Interval,
    pub outside: bool,
}

pub fn holds(i: Interval, label: u32) -> bool
    ensures { result ≡ within i label }
{
    (i.low as u32 <= label) & (label <= i.high as u32)
}

// The labels of a group, by its range word.
fn group(groups: &[u32], g: u32) -> Interval
    ensures { result ≡ group_interval groups.now g }
{
    let at = g as usize;
    if at < groups.len() {
        let w = groups[at];
        Interval {
            low: low(w),
            high: high(w),
        }
    } else {
        Interval { low: 0, high: 0 }
    }
}

// What a label word holds, its group read by the groups: an automaton and what searches by it see none.
pub fn resolve(groups: &[u32], l: Label) -> LabelSet
    ensures { result ≡ label_set groups.now l }
{
    match l {
        Label::Range(low, high) => LabelSet {
            interval: Interval { low, high },
            outside: false,
        },
        Label::Group(g) => LabelSet {
            interval: group(groups, g),
            outside: false,
        },
        Label::Outside(low, high) => LabelSet {
            interval: Interval { low, high },
            outside: true,
        },
    }
}
