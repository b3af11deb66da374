// An operand that waits: whether the empty word belongs to it, and the positions that may begin and that may end its words.
ghost use Rattle.std.specs.Prelude.{◌≡◌, cond, ◌<◌};
ghost use Rattle.expressions.specs.Fragments.{empty_fragment, letter_fragment, then_fragment, or_fragment, star_fragment};
ghost use Rattle.paths.specs.Operand.{fragment_in};

use sets::states::with;

#[derive(Clone, Copy)]
pub struct Operand {
    pub null: bool,
    pub begins: u16,
    pub ends: u16,
}

pub fn empty() -> Operand
    ensures { fragment_in result ≡ empty_fragment }
{
    Operand {
        null: true,
        begins: 0,
        ends: 0,
    }
}

// Position p alone.
pub fn letter(p: u32) -> Operand
    requires { p < 16 }
    ensures { fragment_in result ≡ letter_fragment p }
{
    let s = with(0, p);
    Operand {
        null: false,
        begins: s,
        ends: s,
    }
}

// The set, or none.
pub fn only(b: bool, s: u16) -> u16
    ensures { result ≡ cond b s 0 }
{
    if b { s } else { 0 }
}

pub fn then(a: Operand, b: Operand) -> Operand
    ensures { fragment_in result ≡ then_fragment (fragment_in a) (fragment_in b) }
{
    Operand {
        null: a.null & b.null,
        begins: a.begins | only(a.null, b.begins),
        ends: b.ends | only(b.null, a.ends),
    }
}

pub fn or(a: Operand, b: Operand) -> Operand
    ensures { fragment_in result ≡ or_fragment (fragment_in a) (fragment_in b) }
{
    Operand {
        null: a.null | b.null,
        begins: a.begins | b.begins,
        ends: a.ends | b.ends,
    }
}

pub fn star(a: Operand) -> Operand
    ensures { fragment_in result ≡ star_fragment (fragment_in a) }
{
    Operand {
        null: true,
        begins: a.begins,
        ends: a.ends,
    }
}
