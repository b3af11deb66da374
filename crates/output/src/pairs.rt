// The words of pairs, of a number with each state of a set, written one after another.
ghost use Rattle.std.specs.Prelude.{map, ◌*◌, ◌≤◌, ◌<◌, length};
ghost use Rattle.files.specs.Field.{word_of};
ghost use Rattle.files.specs.Limits.{final_words};
ghost use Rattle.output.specs.Writer.{Writes};
ghost use Rattle.output.specs.Pairs.{pairs_with};

use crate::writer::push;
use files::make::pair_word;
use sets::states::StateSet;

// The words of a kind for x with each state of the set, lowest first.
pub fn write_pairs(kind: u32, x: u32, set: u16, out: &mut [u8], limit: usize, start: usize) -> usize
    requires { (kind < 16) × (x < 65536) × (limit ≤ final_words) × (4 * limit ≤ length out.old) }
    ensures { Writes limit (length out.old) out.old start out.new result (map (word_of kind) (pairs_with x set)) }
{
    let mut count = start;
    for q in StateSet(set) {
        let w = pair_word(kind, x, q);
        count = push(out, limit, count, w);
    }
    count
}
