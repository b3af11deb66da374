// The search over a whole plant, from the root in state 0.
ghost use Rattle.std.specs.Prelude.{◌≡◌, map, ◌≤◌, length, drop};
ghost use Rattle.files.specs.Word.{words};
ghost use Rattle.files.specs.Field.{pair, answer_word};
ghost use Rattle.files.specs.Part.{roots, whole_check};
ghost use Rattle.files.specs.Limits.{part_words, work_bytes};
ghost use Rattle.expressions.specs.Expr.{Expr};
ghost use Rattle.paths.specs.Automaton.{Automates};
ghost use Rattle.walks.specs.Product.{answers};
ghost use Rattle.listing.specs.Listing.{answer_words};

use kinds::count::Mark;
use kinds::find::find_kind;
use part_search::search::{run, seed};
use paths::automaton::Automaton;
use preparing::prepare::prepare;

// Searches from the root.
pub fn search(whole: &[u8], a: Automaton, work: &mut [u8])
    requires { (whole_check (words whole.now) ≡ 0) × (length (words whole.now) ≤ part_words) × (work_bytes ≤ length work.old) }
    ensures { (e : Expr) → Automates a e → answer_words (words whole.now) work.new a.accepts (length (words whole.now))
        ≡ map answer_word (answers (drop 1 (words whole.now)) e (map (λ x. pair x 0) (roots (drop 1 (words whole.now))))) }
{
    let outside = prepare(whole, &a, work);
    let i = find_kind(whole, 2, Mark::Bit17);
    let top = seed(whole, work, outside, i, 0, 0);
    run(whole, &a.follow, work, outside, top);
}
