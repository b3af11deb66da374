// A triple file: 2, then 18.
ghost use Rattle.std.specs.Prelude.{◌≡◌, ◌/◌, ◌<◌, length};
ghost use Rattle.sets.specs.Sets.{any, span};
ghost use Rattle.files.specs.Word.{words};
ghost use Rattle.files.specs.Refuse.{◌then◌, size_check};
ghost use Rattle.files.specs.Refusal.{number};
ghost use Rattle.files.specs.Limits.{triple_words};
ghost use Rattle.triples.specs.Triple.{triples_check};
ghost use Rattle.triples.specs.At.{large_at};

use files::limits::TRIPLE_WORDS;
use files::refusal::{Refusal, ensure};
use files::refuse::check_size;
use files::word::word_at;

// How many triples stand behind the root word.
pub fn count_triples(triples: &[u8]) -> usize
    ensures { result ≡ length (words triples.now) / 3 }
{
    triples.len() / 4 / 3
}

// Whether a word of triple i is too large for its field.
fn is_large(triples: &[u8], i: usize) -> bool
    requires { i < 65536 }
    ensures { result ≡ large_at (words triples.now) i }
{
    let at = 3 * i;
    let source = word_at(triples, at + 1) <= 65535;
    let label = word_at(triples, at + 2) <= 4095;
    let target = word_at(triples, at + 3) <= 65535;
    !(source & label & target)
}

// Whether a word of the first n triples is too large for its field.
fn has_large(triples: &[u8], n: usize) -> bool
    requires { n < 65536 }
    ensures { result ≡ any (large_at (words triples.now)) (span 0 n) }
{
    (0..n).any(|i| is_large(triples, i))
}

// The checks of a triple file in their order.
pub fn check_triples(triples: &[u8]) -> Result<(), Refusal>
    ensures { number result ≡ (size_check triple_words triples.now then triples_check (words triples.now)) }
{
    check_size(triples, TRIPLE_WORDS)?;
    let threes = triples.len() / 4 % 3 == 1;
    let root = word_at(triples, 0) <= 65535;
    let large = has_large(triples, count_triples(triples));
    ensure(threes & root & !large, Refusal::WrongTriples)
}
