// The rows of edge words: where each leads, in which states it may be entered, and the edge word before it that leads there too, so that the edges into
// a node are found from the last of them on.
ghost use Rattle.std.specs.Prelude.{◌≡◌, true, not, ◌&&◌, ℕ, ◌+◌, ◌*◌, ◌≤◌, ◌<◌, length, get_or};
ghost use Rattle.sets.specs.States.{has_state};
ghost use Rattle.files.specs.Word.{words};
ghost use Rattle.files.specs.Field.{label_of};
ghost use Rattle.files.specs.Part.{whole_check};
ghost use Rattle.paths.specs.Letters.{reads};
ghost use Rattle.slots.specs.Slots.{node_at, edge_at, stopped_at, number};
ghost use Rattle.slots.specs.Layout.{Owned};
ghost use Rattle.walk_links.specs.Tables.{Measurable, Linking, Edged, Indexed, Blank};

use crate::tables::{HEADS, MASK, NEXT, TARGET};
use files::buffer::clear;
use files::field::label;
use files::word::word_at;
use paths::automaton::{Automaton, mask};
use sets::table::{get16, put16};
use slots::layout::{node_position, own};
use slots::position::{is_edge, is_stopped, number_at};

// A whole, and the automaton of the path that is asked.
#[derive(Clone, Copy)]
pub struct Asked<'a> {
    pub whole: &'a [u8],
    pub automaton: Automaton,
}

impl Asked<'_> {
    // The states that the edge word at x may be entered in, where its target stands at t: none where that is stopped.
    fn entry_mask(&self, x: usize, t: usize) -> u16
        ensures { (p : ℕ) → has_state result p
            ≡ (not (stopped_at (words self.now.whole.now) t) && reads self.now.automaton.letters (label_of (get_or (words self.now.whole.now) x 0)) p) }
    {
        if is_stopped(self.whole, t) {
            return 0;
        }
        mask(self.automaton, label(word_at(self.whole, x)))
    }

    // The position of the target of the edge word at x, which the whole has.
    fn target_position(&self, out: &[u8], x: usize) -> usize
        requires { (whole_check (words self.now.whole.now) ≡ 0) × (2 * length (words self.now.whole.now) ≤ length out.now) × Owned (words self.now.whole.now) out.now × (edge_at (words self.now.whole.now) x ≡ true) }
        ensures { (node_at (words self.now.whole.now) result ≡ true) × (number (words self.now.whole.now) result ≡ number (words self.now.whole.now) x) }
    {
        match node_position(self.whole, out, number_at(self.whole, x)) {
            Some(t) => t,
            None => 0,
        }
    }

    // Writes the row of the edge word at x.
    fn link_edge(&self, work: &mut [u8], out: &mut [u8], x: usize)
        requires { Measurable (words self.now.whole.now) work.old out.old × Linking (words self.now.whole.now) self.now.automaton work.old out.old x × (edge_at (words self.now.whole.now) x ≡ true) }
        ensures { Linking (words self.now.whole.now) self.now.automaton work.new out.new (x + 1) }
    {
        let t = self.target_position(out, x);
        let m = self.entry_mask(x, t);
        let last = get16(out, HEADS, t);
        put16(work, 0, 16 * x + TARGET, t as u16);
        put16(work, 0, 16 * x + MASK, m);
        put16(work, 0, 16 * x + NEXT, last);
        put16(out, HEADS, t, x as u16);
    }

    // Writes the row of the word at x, where it is an edge word.
    fn link_at(&self, work: &mut [u8], out: &mut [u8], x: usize)
        requires { Measurable (words self.now.whole.now) work.old out.old × Linking (words self.now.whole.now) self.now.automaton work.old out.old x × (x < length (words self.now.whole.now)) }
        ensures { Linking (words self.now.whole.now) self.now.automaton work.new out.new (x + 1) }
    {
        if is_edge(self.whole, x) {
            self.link_edge(work, out, x);
        }
    }

    // Writes the rows of all edge words, and the tables of the output that go with them. No node has a distance.
    pub fn link(&self, work: &mut [u8], out: &mut [u8])
        requires { Measurable (words self.now.whole.now) work.old out.old }
        ensures { Edged (words self.now.whole.now) self.now.automaton work.new × Indexed (words self.now.whole.now) out.new × Blank (words self.now.whole.now) work.new }
    {
        clear(work);
        clear(out);
        own(self.whole, out);
        for x in 0..self.whole.len() / 4 {
            self.link_at(work, out, x);
        }
    }
}
