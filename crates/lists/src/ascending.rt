// Words of one kind that ascend: the calls of a call list, the answers of a second reply.
ghost use Rattle.std.specs.Prelude.{◌≡◌, ℕ, drop};
ghost use Rattle.files.specs.Word.{words};
ghost use Rattle.files.specs.Refusal.{number};
ghost use Rattle.files.specs.Scan.{in_order, scan_ordered};
ghost use Rattle.files.specs.Calls.{call_check};
ghost use Rattle.files.specs.Answers.{answer_check};

use files::field::{kind, state};
use files::refusal::{Refusal, ensure};
use files::scan::{Seen, scan};
use files::word::Words;

// What the words of a list are.
pub trait Listed: Copy {
    ghost alone: { Self → ℕ → ℕ };

    // A word by itself.
    fn check_alone(self, w: u32) -> Result<(), Refusal>
        ensures { number result ≡ alone self w };
}

// Calls, with states up to n.
#[derive(Clone, Copy)]
pub struct Calls {
    pub n: u32,
}

impl Listed for Calls {
    ghost alone = { λ calls w. call_check calls.n w };

    fn check_alone(self, w: u32) -> Result<(), Refusal> {
        let formed = (kind(w) == 12) & (w / 0x10_0000 % 0x100 == 0);
        ensure(formed, Refusal::WrongWord)?;
        ensure(state(w) <= self.n, Refusal::StateTooHigh)
    }
}

#[derive(Clone, Copy)]
pub struct Answers;

impl Listed for Answers {
    ghost alone = { λ answers w. answer_check w };

    fn check_alone(self, w: u32) -> Result<(), Refusal> {
        let formed = (kind(w) == 14) & (w / 0x1_0000 % 0x1000 == 0);
        ensure(formed, Refusal::WrongWord)
    }
}

// Which list it is, and the word before the next.
#[derive(Clone, Copy)]
struct Reader<L> {
    listed: L,
    last: u32,
}

impl<L: Listed> Seen for Reader<L> {
    ghost checked = { λ r w. in_order (L.alone r.listed) r.last w };

    ghost after = { λ r w. record { listed = r.listed; last = w } };

    ghost ended = { λ r. 0 };

    fn check(self, w: u32) -> Result<(), Refusal> {
        self.listed.check_alone(w)?;
        ensure(self.last < w, Refusal::NotAscending)
    }

    fn then(self, w: u32) -> Reader<L> {
        Reader { last: w, ..self }
    }

    fn end(self) -> Result<(), Refusal> {
        Ok(())
    }
}

// The words after the header.
pub fn check_ascending<L: Listed>(bytes: &[u8], listed: L) -> Result<(), Refusal>
    ensures { number result ≡ scan_ordered (L.alone listed) 0 (drop 1 (words bytes.now)) }
{
    scan(Words::body(bytes), Reader { listed, last: 0 })
}
