// A call list: its header, then its words.
ghost use Rattle.std.specs.Prelude.{◌≡◌};
ghost use Rattle.files.specs.Word.{words};
ghost use Rattle.files.specs.Refuse.{◌then◌, size_check};
ghost use Rattle.files.specs.Refusal.{number};
ghost use Rattle.files.specs.Calls.{calls_check};
ghost use Rattle.files.specs.Limits.{reply_words};

use files::field::labels;
use files::limits::REPLY_WORDS;
use files::refusal::Refusal;
use files::refuse::check_file;
use files::word::word_at;
use lists::ascending::{Calls, check_ascending};

// A call list: its size, its header, its words.
pub fn check_calls(bytes: &[u8]) -> Result<(), Refusal>
    ensures { number result ≡ (size_check reply_words bytes.now then calls_check (words bytes.now)) }
{
    check_file(bytes, REPLY_WORDS, 11, false, true)?;
    let n = labels(word_at(bytes, 0));
    check_ascending(bytes, Calls { n })
}
