// The dearest part: doors, each linked with label 0 to all nodes behind them.
ghost use mathlib.Core.List.{map, flatten};
ghost use Rattle.std.specs.Prelude.{◌+◌, ◌*◌, ◌≤◌, ◌<◌, length};
ghost use Rattle.sets.specs.Sets.{span};
ghost use Rattle.files.specs.Refusal.{number};
ghost use Rattle.files.specs.Limits.{part_words};
ghost use Rattle.output.specs.Writer.{Writes, Filed};
ghost use Rattle.dearest.specs.Dearest.{dear_door, dear_part};

use files::buffer::clear;
use files::limits::PART_WORDS;
use files::make::{edge_word, node_word};
use files::refusal::Refusal;
use output::close::close;
use output::writer::push;

// A door's words, behind `start` others; hands back how many there are then.
fn write_door(x: u32, doors: u32, targets: u32, out: &mut [u8], start: usize) -> usize
    requires { (x < doors) × (doors + targets ≤ 65536) × (4 * part_words ≤ length out.old) }
    ensures { Writes part_words (length out.old) out.old start out.new result (dear_door doors targets x) }
{
    let mut count = push(out, PART_WORDS, start, node_word(x, true, false, false));
    for t in doors..doors + targets {
        count = push(out, PART_WORDS, count, edge_word(0, t));
    }
    count
}

// The words of all doors.
fn write_doors(doors: u32, targets: u32, out: &mut [u8], start: usize) -> usize
    requires { (doors + targets ≤ 65536) × (4 * part_words ≤ length out.old) }
    ensures { Writes part_words (length out.old) out.old start out.new result (flatten (map (dear_door doors targets) (span 0 doors))) }
{
    let mut count = start;
    for x in 0..doors {
        count = write_door(x, doors, targets, out, count);
    }
    count
}

// Writes the part.
pub fn write_part(doors: u32, targets: u32, out: &mut [u8]) -> Result<(), Refusal>
    requires { (doors + targets ≤ 65536) × (4 * part_words ≤ length out.old) }
    ensures { Filed part_words (length out.old) (dear_part doors targets) out.new (number result) }
{
    clear(out);
    let count = write_doors(doors, targets, out, 1);
    close(1, 0, 0, PART_WORDS, count, out)
}
