// The search of the part from the called pairs.
ghost use Rattle.std.specs.Prelude.{◌≡◌, map, ◌≤◌, length, drop};
ghost use Rattle.files.specs.Word.{words};
ghost use Rattle.files.specs.Field.{answer_word};
ghost use Rattle.files.specs.Part.{part_check};
ghost use Rattle.files.specs.Calls.{calls_check};
ghost use Rattle.files.specs.Limits.{part_words, work_bytes};
ghost use Rattle.expressions.specs.Expr.{Expr};
ghost use Rattle.paths.specs.Automaton.{Automates};
ghost use Rattle.walks.specs.Product.{answers};
ghost use Rattle.listing.specs.Listing.{answer_words};
ghost use Rattle.site_second.specs.Second.{called_in};

use part_search::search::run;
use paths::automaton::Automaton;
use preparing::prepare::prepare;
use site_calls::called::seed_called;

// Searches from the called pairs.
pub fn search(part: &[u8], calls: &[u8], a: Automaton, work: &mut [u8])
    requires { (part_check (words part.now) ≡ 0) × (length (words part.now) ≤ part_words) × (calls_check (words calls.now) ≡ 0) × (work_bytes ≤ length work.old) }
    ensures { (e : Expr) → Automates a e → answer_words (words part.now) work.new a.accepts (length (words part.now))
        ≡ map answer_word (answers (drop 1 (words part.now)) e (called_in (drop 1 (words part.now)) (drop 1 (words calls.now)))) }
{
    let outside = prepare(part, &a, work);
    let top = seed_called(part, calls, work, outside);
    run(part, &a.follow, work, outside, top);
}
