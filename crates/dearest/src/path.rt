// The dearest path: the star of an or of full ranges, in which every position may follow every other on every label.
ghost use Rattle.std.specs.Prelude.{◌∷◌, ◌-◌, ◌*◌, ◌≤◌, ◌<◌, length};
ghost use Rattle.files.specs.Refusal.{number};
ghost use Rattle.files.specs.Limits.{path_words};
ghost use Rattle.output.specs.Writer.{Writes, Filed};
ghost use Rattle.dearest.specs.Dearest.{full_range, dear_rest, dear_path};
ghost use Rattle.dearest.specs.Answer.{range_of};

use files::buffer::clear;
use files::limits::PATH_WORDS;
use files::make::{operator_word, range_word};
use files::refusal::Refusal;
use output::close::close;
use output::writer::push;

// Label k's range, and from the second on its or right after it.
fn write_range(k: u32, out: &mut [u8], start: usize) -> usize
    requires { 4 * path_words ≤ length out.old }
    ensures { Writes path_words (length out.old) out.old start out.new result (range_of k) }
{
    let count = push(out, PATH_WORDS, start, range_word(0, 4095));
    let joined = 1 < k;
    if joined {
        return push(out, PATH_WORDS, count, operator_word(2));
    }
    count
}

// All ranges with their ors, and the star.
fn write_ranges(labels: u32, out: &mut [u8], start: usize) -> usize
    requires { (0 < labels) × (labels < 16) × (4 * path_words ≤ length out.old) }
    ensures { Writes path_words (length out.old) out.old start out.new result (full_range ∷ dear_rest (labels - 1)) }
{
    let mut count = start;
    for k in 1..=labels {
        count = write_range(k, out, count);
    }
    push(out, PATH_WORDS, count, operator_word(3))
}

// Writes the path.
pub fn write_path(labels: u32, out: &mut [u8]) -> Result<(), Refusal>
    requires { (0 < labels) × (labels < 16) × (4 * path_words ≤ length out.old) }
    ensures { Filed path_words (length out.old) (dear_path labels) out.new (number result) }
{
    clear(out);
    let count = write_ranges(labels, out, 1);
    close(4, 0, labels, PATH_WORDS, count, out)
}
