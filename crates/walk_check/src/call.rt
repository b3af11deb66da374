// The checker's calls: a set of states steps along the walk's words.
ghost use Rattle.std.specs.Prelude.{◌≡◌, ◌&&◌, [], ◌∷◌, eqb, length, drop};
ghost use Rattle.sets.specs.Sets.{any};
ghost use Rattle.sets.specs.States.{states_of};
ghost use Rattle.files.specs.Word.{words};
ghost use Rattle.files.specs.Refuse.{size_check};
ghost use Rattle.files.specs.Outcome.{left, left_lent};
ghost use Rattle.files.specs.Part.{whole_check};
ghost use Rattle.files.specs.Path.{path_check};
ghost use Rattle.files.specs.Groups.{groups_check, loaded};
ghost use Rattle.files.specs.Limits.{walk_words};
ghost use Rattle.expressions.specs.Expr.{Expr};
ghost use Rattle.expressions.specs.Positions.{accepts};
ghost use Rattle.expressions.specs.Labels.{holds};
ghost use Rattle.paths.specs.Automaton.{Automates};
ghost use Rattle.file_walks.specs.Walks.{runs_in};
ghost use Rattle.walk_check.specs.Checker.{goes};
ghost use Rattle.walk_check.specs.Check.{headed, says_yes, leaves_checked, leaves_checked_grouped};

use crate::plant::{behind, enter, root_of};
use files::buffer::clear;
use files::field::{label, target};
use files::limits::{SHOWN_WORDS, WALK_WORDS};
use files::refuse::check_size;
use files::word::{Words, word_at};
use groups::table::our_groups;
use paths::automaton::{Automaton, position_automaton};
use walk_steps::stepping::{accepting, advance};
use whole_queries::asked::check;

// Whether the walk ends here: at the asked node, in a state that accepts.
fn ends(a: Automaton, x: u32, node: u32, s: u16) -> bool
    ensures { (e : Expr) → Automates a e → result ≡ (eqb x node && any (accepts e) (states_of s)) }
{
    (x == node) & accepting(a, s)
}

// Whether the walk's words lead from the root to the node: x is where the walk stands, and `at` begins with its edge words.
fn leads(whole: &[u8], a: Automaton, root: u32, node: u32, walk: &[u8]) -> bool
    requires { whole_check (words whole.now) ≡ 0 }
    ensures { (e : Expr) → Automates a e → result ≡ (runs_in (drop 1 (words whole.now)) root
        && goes holds (runs_in (drop 1 (words whole.now))) (drop 1 (words whole.now)) e node root (0 ∷ []) (drop 1 (words walk.now))) }
{
    let Some(mut at) = behind(whole, root) else {
        return false;
    };
    let mut x = root;
    let mut s: u16 = 1;
    for w in Words::body(walk) {
        match enter(whole, at, w) {
            Some(next) => at = next,
            None => return false,
        }
        s = advance(a, s, label(w));
        x = target(w);
    }
    ends(a, x, node, s)
}

// Whether the bytes are in fours, some, not over 4,096 words, and the header just their count.
fn laid_out(walk: &[u8]) -> bool
    ensures { result ≡ (eqb (size_check walk_words walk.now) 0 && headed (words walk.now)) }
{
    let n = word_at(walk, 0) as usize;
    check_size(walk, WALK_WORDS).is_ok() & (walk.len() / 4 == n)
}

// The checker's answer.
fn says_yes(whole: &[u8], groups: &[u8], path: &[u8], node: u32, walk: &[u8]) -> bool
    requires { (whole_check (words whole.now) ≡ 0) × (groups_check groups.now ≡ 0) × (path_check (words path.now) ≡ 0) }
    ensures { result ≡ says_yes (words whole.now) (loaded (words groups.now) (words path.now)) node walk.now }
{
    if laid_out(walk) {
        let a = position_automaton(path, groups);
        let root = root_of(whole);
        return leads(whole, a, root, node, walk);
    }
    false
}

// The checker: yes is 1 if the bytes are an accepted walk to the node, in its layout; else 0, and 0 after a refusal.
pub fn check_walk_grouped(
    whole: &[u8],
    groups: &[u8],
    path: &[u8],
    node: u32,
    walk: &[u8],
    yes: &mut u32,
    work: &mut [u8],
) -> u32
    ensures { left_lent yes.new (left result [] work.new)
        ≡ leaves_checked_grouped (length work.old) whole.now groups.now path.now node walk.now }
{
    let outcome = check(0, SHOWN_WORDS, whole, groups, path, 0, work);
    clear(work);
    match outcome {
        Ok(()) => {
            *yes = u32::from(says_yes(whole, groups, path, node, walk));
            0
        }
        Err(refusal) => {
            *yes = 0;
            refusal.code()
        }
    }
}

// Without groups: the same with our own.
pub fn check_walk(
    whole: &[u8],
    path: &[u8],
    node: u32,
    walk: &[u8],
    yes: &mut u32,
    work: &mut [u8],
) -> u32
    ensures { left_lent yes.new (left result [] work.new)
        ≡ leaves_checked (length work.old) whole.now path.now node walk.now }
{
    let ours = our_groups();
    check_walk_grouped(whole, &ours, path, node, walk, yes, work)
}
