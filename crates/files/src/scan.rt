// Files are read word by word: each word is checked by what was seen before it, and at the end there is a last check.
ghost use Rattle.std.specs.Prelude.{◌≡◌, ℕ};
ghost use Rattle.files.specs.Refusal.{number};
ghost use Rattle.files.specs.Scan.{scan_words};
ghost use Rattle.files.specs.Read.{left_of};

use crate::refusal::Refusal;
use crate::word::Words;

// What was seen of a file's words so far, as far as it matters for those to come.
pub trait Seen: Copy {
    ghost checked: { Self → ℕ → ℕ };

    ghost after: { Self → ℕ → Self };

    ghost ended: { Self → ℕ };

    // The next word.
    fn check(self, w: u32) -> Result<(), Refusal>
        ensures { number result ≡ checked self w };

    // What is seen behind an accepted word.
    fn then(self, w: u32) -> Self
        requires { checked self w ≡ 0 }
        ensures { result ≡ after self w };

    // The end of the file.
    fn end(self) -> Result<(), Refusal>
        ensures { number result ≡ ended self };
}

// Word by word, and the end.
pub fn scan<S: Seen>(words: Words, start: S) -> Result<(), Refusal>
    ensures { number result ≡ scan_words S.checked S.after S.ended start (left_of words.entry) }
{
    let mut seen = start;
    for w in words {
        seen.check(w)?;
        seen = seen.then(w);
    }
    seen.end()
}
