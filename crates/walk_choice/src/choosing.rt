// The choice by the distances. The set of states at hand moves as a whole: two runs over the same edge words are one walk.
ghost use Rattle.std.specs.Prelude.{◌≡◌, true, [], ◌∷◌, ℕ, ◌*◌, ◌≤◌, ◌<◌, length, get_or, drop, IfSome};
ghost use Rattle.sets.specs.States.{states_of};
ghost use Rattle.sets.specs.Follow.{Follows};
ghost use Rattle.files.specs.Word.{words};
ghost use Rattle.files.specs.Limits.{walk_words};
ghost use Rattle.expressions.specs.Expr.{Expr};
ghost use Rattle.expressions.specs.Labels.{holds};
ghost use Rattle.paths.specs.Automaton.{Automates};
ghost use Rattle.slots.specs.Slots.{node_at, edge_at, number, Behind};
ghost use Rattle.output.specs.Writer.{Writes};
ghost use Rattle.file_walks.specs.Walks.{runs_in};
ghost use Rattle.best_walks.specs.Finder.{choose};
ghost use Rattle.walk_choice.specs.Choices.{Linked, near, opening, FirstOpen};

use files::limits::WALK_WORDS;
use files::word::word_at;
use output::writer::push;
use sets::follow::follow_all;
use sets::table::get16;
use slots::position::is_edge;
use walk_links::links::Asked;
use walk_links::tables::{MASK, TARGET};
use walk_rows::rows::having;

// What is asked, and in the working buffer the rows of the whole's edge words.
#[derive(Clone, Copy)]
pub struct Rows<'a> {
    pub asked: Asked<'a>,
    pub work: &'a [u8],
}

impl Rows<'_> {
    // Whether the edge word at x takes a state to one that has the number v, where u has what may follow the states at hand.
    #[tactic(auto, using(slots::proofs::Places::edge_below))]
    fn opens(&self, x: usize, u: u16, v: u16) -> bool
        requires linked { Linked (words self.now.asked.whole.now) self.now.asked.automaton self.now.work.now }
        requires edge { (edge_at (words self.now.asked.whole.now) x ≡ true) × (0 < v) }
        ensures { (e : Expr) → Automates self.now.asked.automaton e → (s : ℕ) → Follows self.now.asked.automaton.follow s u → result ≡ opening (words self.now.asked.whole.now) self.now.work.now e (states_of s) v (get_or (words self.now.asked.whole.now) x 0) }
    {
        let m = u & get16(self.work, 0, 16 * x + MASK);
        if m == 0 {
            return false;
        }
        let t = get16(self.work, 0, 16 * x + TARGET) as usize;
        m & having(self.work, t, v) != 0
    }

    // The position of the first edge word of the node at i that opens.
    fn first_open(&self, i: usize, u: u16, v: u16) -> Option<usize>
        requires linked { Linked (words self.now.asked.whole.now) self.now.asked.automaton self.now.work.now }
        requires node { (node_at (words self.now.asked.whole.now) i ≡ true) × (0 < v) }
        ensures behind { IfSome result (λ x. Behind (words self.now.asked.whole.now) i x) }
        ensures first_open { (e : Expr) → Automates self.now.asked.automaton e → (s : ℕ) → Follows self.now.asked.automaton.follow s u → FirstOpen (words self.now.asked.whole.now) self.now.work.now e (states_of s) v i result }
    {
        for x in i + 1..self.asked.whole.len() / 4 {
            if !is_edge(self.asked.whole, x) {
                return None;
            }
            if self.opens(x, u, v) {
                return Some(x);
            }
        }
        None
    }

    // Writes d links from the node at `root` behind `start` words; hands back how many words there are then.
    pub fn write_links(&self, root: usize, d: u16, out: &mut [u8], start: usize) -> usize
        requires linked { Linked (words self.now.asked.whole.now) self.now.asked.automaton self.now.work.now }
        requires root { (node_at (words self.now.asked.whole.now) root ≡ true) × (4 * walk_words ≤ length out.old) }
        ensures { (e : Expr) → Automates self.now.asked.automaton e → Writes walk_words (length out.old) out.old start out.new result
            (choose holds (runs_in (drop 1 (words self.now.asked.whole.now))) (drop 1 (words self.now.asked.whole.now)) e (near (words self.now.asked.whole.now) self.now.work.now) d
            (number (words self.now.asked.whole.now) root) (0 ∷ [])) }
    {
        let follow = self.asked.automaton.follow;
        let mut i = root;
        let mut s: u16 = 1;
        let mut n = start;
        for left in (1..=d).rev() {
            let u = follow_all(follow, s);
            let Some(x) = self.first_open(i, u, left) else {
                return n;
            };
            n = push(out, WALK_WORDS, n, word_at(self.asked.whole, x));
            s = u & get16(self.work, 0, 16 * x + MASK);
            i = get16(self.work, 0, 16 * x + TARGET) as usize;
        }
        n
    }
}
