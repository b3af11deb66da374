// The position automaton of a path: sets of states and, for each position, the labels that it reads.
ghost use Rattle.std.specs.Prelude.{◌≡◌, ℕ, drop};
ghost use Rattle.sets.specs.States.{has_state};
ghost use Rattle.files.specs.Word.{words};
ghost use Rattle.files.specs.Path.{path_check};
ghost use Rattle.files.specs.Groups.{groups_check, loaded};
ghost use Rattle.expressions.specs.Labels.{expr_of};
ghost use Rattle.paths.specs.Letters.{reads};
ghost use Rattle.paths.specs.Automaton.{Automates, Finishes};

use super::builder::{Builder, start, step};
use super::letters::Letters;
use super::operand::{Operand, only};
use super::table::link;
use files::word::Words;
use groups::table::read_groups;

// Row q of `follow` holds the positions that may come next in state q.
#[derive(Clone, Copy)]
pub struct Automaton {
    pub follow: [u16; 16],
    pub accepts: u16,
    pub letters: Letters,
}

// State 0 stands before all words: what begins one may follow it, and it accepts where the empty word belongs.
fn finish(b: Builder) -> Automaton
    ensures { Finishes b result }
{
    let whole = b.operands[0];
    let rows = b.rows;
    let letters = b.letters;
    let before = Operand {
        null: false,
        begins: 0,
        ends: 1,
    };
    let follow = link(rows, before, whole);
    Automaton {
        follow,
        accepts: whole.ends | only(whole.null, 1),
        letters,
    }
}

// The automaton of an accepted path with accepted groups loaded, which are read once.
pub fn position_automaton(path: &[u8], groups: &[u8]) -> Automaton
    requires { (groups_check groups.now ≡ 0) × (path_check (words path.now) ≡ 0) }
    ensures { Automates result (expr_of (drop 1 (loaded (words groups.now) (words path.now)))) }
{
    let g = read_groups(groups);
    let mut b = start();
    for w in Words::body(path) {
        b = step(b, &g, w);
    }
    finish(b)
}

// The positions that read a label.
pub fn mask(a: Automaton, label: u32) -> u16
    ensures { (p : ℕ) → has_state result p ≡ reads a.letters label p }
{
    let l = a.letters;
    super::letters::mask(l, label)
}
