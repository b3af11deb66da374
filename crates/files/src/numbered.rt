// What comes to a number: a refusal, what a check hands on, or a caller's own number, which need not be a refusal's. 0 is acceptance.
ghost use Rattle.std.specs.Prelude.{◌≡◌, ◌<◌, ℕ, IfErr};
ghost use Rattle.files.specs.Refusal.{code, number as number_of, told};

use crate::refusal::{Refusal, number};

pub trait Numbered: Copy {
    ghost number: { Self → ℕ };

    fn number(self) -> u32
        ensures { result ≡ number self };
}

impl Numbered for u32 {
    ghost number = { λ k. k };

    fn number(self) -> u32 {
        self
    }
}

impl Numbered for Refusal {
    ghost number = { λ refusal. code refusal };

    fn number(self) -> u32 {
        Refusal::code(self)
    }
}

impl Numbered for Result<(), Refusal> {
    ghost number = { λ outcome. number_of outcome };

    fn number(self) -> u32 {
        number(self)
    }
}

impl<T: Copy> Numbered for Result<T, u32> {
    ghost number = { λ outcome. told outcome };

    fn number(self) -> u32 {
        match self {
            Ok(_) => 0,
            Err(number) => number,
        }
    }
}

// Goes on after an acceptance; of all else hands on the number.
pub fn passed<N: Numbered>(outcome: N) -> Result<(), u32>
    ensures said { told result ≡ N.number outcome }
    ensures refused { IfErr result (λ k. 0 < k) }
{
    let number = outcome.number();
    if number == 0 { Ok(()) } else { Err(number) }
}
