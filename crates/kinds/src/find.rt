// The first word of one kind.
ghost use Rattle.files.specs.Word.{words};
ghost use Rattle.kinds.specs.Kinds.{of_kind};
ghost use Rattle.kinds.specs.Seek.{FirstThat};

use crate::count::{Mark, is_of_kind};
use files::word::word_at;

// Its place, or the number of words where there is none.
pub fn find_kind(bytes: &[u8], k: u32, mark: Mark) -> usize
    ensures { FirstThat (of_kind k mark) (words bytes.now) result }
{
    let count = bytes.len() / 4;
    for i in 0..count {
        if is_of_kind(word_at(bytes, i), k, mark) {
            return i;
        }
    }
    count
}
