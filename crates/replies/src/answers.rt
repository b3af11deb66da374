// A second reply: the words after its header.
ghost use Rattle.std.specs.Prelude.{◌≡◌, get_or, drop};
ghost use Rattle.files.specs.Word.{words};
ghost use Rattle.files.specs.Refusal.{number};
ghost use Rattle.files.specs.Answers.{answers_check};

use files::refusal::Refusal;
use lists::ascending::{Answers, check_ascending};

pub fn check_answers(file: &[u8]) -> Result<(), Refusal>
    ensures { number result ≡ answers_check (get_or (words file.now) 0 0) (drop 1 (words file.now)) }
{
    check_ascending(file, Answers)
}
