// The words of one kind, counted.
ghost use Rattle.std.specs.Prelude.{◌≡◌, length, drop};
ghost use Rattle.sets.specs.Sets.{filter};
ghost use Rattle.files.specs.Word.{words};
ghost use Rattle.kinds.specs.Kinds.{of_kind};

use files::field::kind;
use files::word::Words;

// Which words of a kind: all, or those with a bit.
#[derive(Clone, Copy)]
pub enum Mark {
    Any,
    Bit16,
    Bit17,
}

pub fn is_of_kind(w: u32, k: u32, mark: Mark) -> bool
    ensures { result ≡ of_kind k mark w }
{
    let same = kind(w) == k;
    match mark {
        Mark::Any => same,
        Mark::Bit16 => same & (w / 0x1_0000 % 2 == 1),
        Mark::Bit17 => same & (w / 0x2_0000 % 2 == 1),
    }
}

// How many such words there are from word `from` on.
pub fn count_kind(bytes: &[u8], from: usize, k: u32, mark: Mark) -> usize
    ensures { result ≡ length (filter (of_kind k mark) (drop from (words bytes.now))) }
{
    let mut count = 0;
    for w in Words::from(bytes, from) {
        if is_of_kind(w, k, mark) {
            count += 1;
        }
    }
    count
}
