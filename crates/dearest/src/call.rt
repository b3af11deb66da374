// The call of planners: from the numbers of doors, outside targets and labels the part and the path whose first reply is the longest.
ghost use Rattle.std.specs.Prelude.{◌≡◌, length};
ghost use Rattle.files.specs.Limits.{part_words, path_words};
ghost use Rattle.files.specs.Refusal.{number};
ghost use Rattle.output.specs.Writer.{Filed};
ghost use Rattle.output.specs.Frame.{Checked, Responds};
ghost use Rattle.dearest.specs.Dearest.{dear_part, dear_path, left_both, dearest_number, dearest_call};
ghost use Rattle.dearest.specs.Answer.{checks, Writable, part_outcome, path_outcome};

use crate::counts::{Counts, check_counts};
use crate::part::write_part;
use crate::path::write_path;
use files::limits::{PART_WORDS, PATH_WORDS};
use files::refusal::Refusal;
use files::refuse::check_room;
use output::settle::{settle, withhold};

// The checks in their order: the buffers, the counts.
fn check(counts: Counts, part: usize, path: usize, work: usize) -> Result<(), Refusal>
    ensures { Checked part_words part work (checks path work counts.doors counts.targets counts.labels) (number result) }
{
    check_room(PART_WORDS, part, work)?;
    check_room(PATH_WORDS, path, work)?;
    check_counts(counts)
}

// Writes both files. Neither is over its limit, so it refuses nothing.
fn write(counts: Counts, part: &mut [u8], path: &mut [u8]) -> Result<(), Refusal>
    requires { Writable (length part.old) (length path.old) counts.doors counts.targets counts.labels }
    ensures { Filed part_words (length part.old) (dear_part counts.doors counts.targets) part.new (number result)
        × Filed path_words (length path.old) (dear_path counts.labels) path.new (number result) }
{
    write_part(counts.doors, counts.targets, part)?;
    write_path(counts.labels, path)
}

// Both files, or the refusal of a check.
fn answer(counts: Counts, part: &mut [u8], path: &mut [u8], work: usize) -> Result<(), Refusal>
    ensures { let number_of = dearest_number (length part.old) (length path.old) work counts.doors counts.targets counts.labels in
        Responds (part_outcome number_of counts.doors counts.targets) (length part.old) part.new (number result)
        × Responds (path_outcome number_of counts.labels) (length path.old) path.new (number result) }
{
    check(counts, part.len(), path.len(), work)?;
    write(counts, part, path)
}

// Writes the dearest part and path.
pub fn dearest(
    doors: u32,
    targets: u32,
    labels: u32,
    part: &mut [u8],
    path: &mut [u8],
    work: &mut [u8],
) -> u32
    ensures { left_both result part.new path.new work.new
        ≡ dearest_call (length part.old) (length path.old) (length work.old) doors targets labels }
{
    let counts = Counts {
        doors,
        targets,
        labels,
    };
    let outcome = answer(counts, part, path, work.len());
    withhold(outcome, path);
    settle(outcome, part, work)
}
