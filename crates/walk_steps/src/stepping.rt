// A set of states that steps by a label, and whether it accepts.
ghost use Rattle.std.specs.Prelude.{◌≡◌};
ghost use Rattle.sets.specs.Sets.{any};
ghost use Rattle.sets.specs.States.{states_of};
ghost use Rattle.expressions.specs.Expr.{Expr};
ghost use Rattle.expressions.specs.Positions.{accepts};
ghost use Rattle.expressions.specs.Labels.{holds};
ghost use Rattle.paths.specs.Automaton.{Automates};
ghost use Rattle.file_walks.specs.Moving.{moved};

use paths::automaton::{Automaton, mask};
use sets::follow::follow_all;

// The states that the label takes a state of s to.
pub fn advance(a: Automaton, s: u16, label: u32) -> u16
    ensures { (e : Expr) → Automates a e → states_of result ≡ moved holds e (states_of s) label }
{
    let follow = a.follow;
    follow_all(follow, s) & mask(a, label)
}

// Whether some state of s accepts.
pub fn accepting(a: Automaton, s: u16) -> bool
    ensures { (e : Expr) → Automates a e → result ≡ any (accepts e) (states_of s) }
{
    s & a.accepts != 0
}
