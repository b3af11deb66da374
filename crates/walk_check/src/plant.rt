// A whole read word by word, as a walk goes through it: the root, where a node's edge words begin, and a step by one of them.
ghost use Rattle.std.specs.Prelude.{◌≡◌, ◌&&◌, [], ◌∷◌, eqb, drop};
ghost use Rattle.sets.specs.Sets.{member};
ghost use Rattle.files.specs.Word.{words};
ghost use Rattle.files.specs.Read.{left_of};
ghost use Rattle.files.specs.Field.{node_of};
ghost use Rattle.files.specs.Part.{is_node, roots, front, whole_check};
ghost use Rattle.walk_check.specs.Plant.{Begins, Enters};

use files::field::{node, stopped, target};
use files::part::{is_edge, is_node};
use files::word::{Words, word_at};
use kinds::count::Mark;
use kinds::find::find_kind;

// The root of an accepted whole.
pub fn root_of(whole: &[u8]) -> u32
    requires { whole_check (words whole.now) ≡ 0 }
    ensures { roots (drop 1 (words whole.now)) ≡ result ∷ [] }
{
    let i = find_kind(whole, 2, Mark::Bit17);
    node(word_at(whole, i))
}

// Whether w is the word of the node x.
fn names(w: u32, x: u32) -> bool
    ensures { result ≡ (is_node w && eqb (node_of w) x) }
{
    is_node(w) & (node(w) == x)
}

// The words behind that of the node x, its edge words first; none if it does not run.
pub fn behind(whole: &[u8], x: u32) -> Option<Words>
    requires { whole_check (words whole.now) ≡ 0 }
    ensures { Begins (words whole.now) x result }
{
    let mut body = Words::body(whole);
    while let Some(w) = body.next() {
        if names(w, x) {
            return if stopped(w) { None } else { Some(body) };
        }
    }
    None
}

// Whether w is one of the edge words at the front.
fn in_front(at: Words, w: u32) -> bool
    ensures { result ≡ member w (front (left_of at.entry)) }
{
    for v in at {
        if !is_edge(v) {
            return false;
        }
        if w == v {
            return true;
        }
    }
    false
}

// By the word w from the node whose edge words are at the front: the words behind that of its target; none if w is none of them or the target
// does not run.
pub fn enter<'a>(whole: &'a [u8], at: Words<'a>, w: u32) -> Option<Words<'a>>
    requires { whole_check (words whole.now) ≡ 0 }
    ensures { Enters (words whole.now) (left_of at.entry) w result }
{
    if in_front(at, w) {
        behind(whole, target(w))
    } else {
        None
    }
}
