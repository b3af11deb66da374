// A path, checked word by word.
ghost use Rattle.std.specs.Prelude.{◌≡◌, ◌&&◌, [], ◌∷◌, ℕ, Ok, suc, ◌-◌, leb, get_or, drop};
ghost use Rattle.files.specs.Word.{words};
ghost use Rattle.files.specs.Refuse.{◌then◌, ◌unless◌, size_check};
ghost use Rattle.files.specs.Refusal.{number};
ghost use Rattle.files.specs.Path.{takes, word_check, end_check, body_check, path_check};
ghost use Rattle.files.specs.Expr.{operator_number, expr_at};
ghost use Rattle.files.specs.Limits.{path_words, most_waiting};
ghost use Rattle.queries.specs.Waiting.{waiting_after};

use files::expr::{ExprWord, Operator, read_expr};
use files::field::labels;
use files::limits::{MOST_WAITING, PATH_WORDS};
use files::refusal::{Refusal, ensure};
use files::refuse::check_file;
use files::scan::{Seen, scan};
use files::word::{Words, word_at};
use kinds::count::{Mark, count_kind};

// As wide as the count of those that wait.
const MOST: u32 = MOST_WAITING as u32;

// The operands that an operator takes.
fn operands(op: Operator) -> u32
    ensures { result ≡ get_or (0 ∷ 2 ∷ 2 ∷ 1 ∷ []) (operator_number op) 0 }
{
    match op {
        Operator::Empty => 0,
        Operator::Then => 2,
        Operator::Or => 2,
        Operator::Star => 1,
    }
}

// The operands that a word takes.
fn takes(e: ExprWord) -> u32
    ensures { (w : ℕ) → expr_at w ≡ Ok e → result ≡ takes w }
{
    match e {
        ExprWord::Label(_) => 0,
        ExprWord::Operator(op) => operands(op),
    }
}

// 9: an operand is missing, or too many wait after a word that takes `taken`.
fn check_waiting(waiting: u32, taken: u32) -> Result<(), Refusal>
    ensures { number result ≡ (9 unless (leb taken waiting && leb (suc (waiting - taken)) most_waiting)) }
{
    ensure(taken <= waiting, Refusal::WrongOperands)?;
    ensure(waiting - taken < MOST, Refusal::WrongOperands)
}

// How many operands wait behind the words so far.
#[derive(Clone, Copy)]
struct Waiting(u32);

impl Seen for Waiting {
    ghost checked = { λ s w. word_check most_waiting s.0 w };

    ghost after = { waiting_after };

    ghost ended = { λ s. end_check s.0 };

    // 5: no expression word; then 9.
    fn check(self, w: u32) -> Result<(), Refusal> {
        let e = read_expr(w)?;
        check_waiting(self.0, takes(e))
    }

    fn then(self, w: u32) -> Waiting {
        match read_expr(w) {
            Ok(e) => Waiting(self.0 - takes(e) + 1),
            Err(_) => self,
        }
    }

    fn end(self) -> Result<(), Refusal> {
        ensure(self.0 == 1, Refusal::WrongOperands)
    }
}

// The words after the header; at their end one operand waits, and the labels were as many as the header says.
fn check_body(bytes: &[u8]) -> Result<(), Refusal>
    ensures { number result ≡ body_check most_waiting (get_or (words bytes.now) 0 0) (drop 1 (words bytes.now)) }
{
    scan(Words::body(bytes), Waiting(0))?;
    let n = labels(word_at(bytes, 0)) as usize;
    ensure(
        count_kind(bytes, 1, 5, Mark::Any) == n,
        Refusal::WrongOperands,
    )
}

// A path: its size, its header, its words.
pub fn check_path(bytes: &[u8]) -> Result<(), Refusal>
    ensures { number result ≡ (size_check path_words bytes.now then path_check (words bytes.now)) }
{
    check_file(bytes, PATH_WORDS, 4, false, true)?;
    check_body(bytes)
}
