// The calls for the walk beside a listed node.
ghost use Rattle.std.specs.Prelude.{◌≡◌, true, List, [], ◌∷◌, ℕ, length, drop, IfSome};
ghost use Rattle.files.specs.Word.{words};
ghost use Rattle.files.specs.Refusal.{number};
ghost use Rattle.files.specs.Outcome.{left, leaves};
ghost use Rattle.files.specs.Part.{whole_check};
ghost use Rattle.files.specs.Path.{path_check};
ghost use Rattle.files.specs.Groups.{groups_check};
ghost use Rattle.files.specs.Limits.{shown_words, path_words, walk_words};
ghost use Rattle.expressions.specs.Expr.{Expr};
ghost use Rattle.expressions.specs.Labels.{expr_of};
ghost use Rattle.paths.specs.Automaton.{Automates};
ghost use Rattle.slots.specs.Slots.{node_at};
ghost use Rattle.output.specs.Writer.{Filed};
ghost use Rattle.output.specs.Frame.{input, also, Passed, Responds};
ghost use Rattle.file_walks.specs.Walks.{walk_file};
ghost use Rattle.walk_links.specs.Tables.{Measurable, Edged};
ghost use Rattle.walk_find.specs.Walk.{walk_call, walk_grouped_call};
ghost use Rattle.walk_find.specs.Measured.{links_by, Measured};

use files::buffer::clear;
use files::limits::{SHOWN_WORDS, WALK_WORDS};
use files::refusal::Refusal;
use groups::table::our_groups;
use kinds::count::Mark;
use kinds::find::find_kind;
use output::close::close;
use output::settle::settle;
use paths::automaton::position_automaton;
use slots::layout::node_position;
use slots::position::is_stopped;
use walk_choice::choosing::Rows;
use walk_distances::rounds::measure;
use walk_links::links::Asked;
use whole_queries::asked::check as check_inputs;

// Where the best walk starts, and how many links it has.
#[derive(Clone, Copy)]
pub struct Best {
    pub root: usize,
    pub links: u16,
}

// Measures the distances to the node: how the best walk goes from the root, if one does.
fn find(asked: &Asked, node: u32, out: &mut [u8], work: &mut [u8]) -> Option<Best>
    requires { Measurable (words asked.now.whole.now) work.old out.old × ((e : Expr) × Automates asked.now.automaton e) }
    ensures measured { (path : List ℕ) → Automates asked.now.automaton (expr_of (drop 1 path)) → Measured (words asked.now.whole.now) path node work.new result }
    ensures edged { IfSome result (λ best. Edged (words asked.now.whole.now) asked.now.automaton work.new × (node_at (words asked.now.whole.now) best.root ≡ true)) }
{
    asked.link(work, out);
    let root = find_kind(asked.whole, 2, Mark::Bit17);
    let i = node_position(asked.whole, out, node)?;
    if is_stopped(asked.whole, root) {
        return None;
    }
    let links = measure(asked, work, out, i, root)?;
    Some(Best { root, links })
}

// Writes the file of the walk that the distances choose. Refuses one over its limit, and no other.
fn write(asked: &Asked, best: Best, out: &mut [u8], work: &[u8]) -> Result<(), Refusal>
    requires { Measurable (words asked.now.whole.now) work.now out.old × Edged (words asked.now.whole.now) asked.now.automaton work.now × (node_at (words asked.now.whole.now) best.root ≡ true) }
    ensures { (e : Expr) → Automates asked.now.automaton e
        → Filed walk_words (length out.old) (walk_file (links_by (words asked.now.whole.now) work.now e best.root best.links)) out.new (number result) }
{
    clear(out);
    let rows = Rows {
        asked: *asked,
        work,
    };
    let count = rows.write_links(best.root, best.links, out, 1);
    close(0, 0, 0, WALK_WORDS, count, out)
}

// The walk of accepted inputs, or 20 where the node has none from the root.
fn show(
    whole: &[u8],
    groups: &[u8],
    path: &[u8],
    node: u32,
    out: &mut [u8],
    work: &mut [u8],
) -> Result<(), Refusal>
    requires { Passed walk_words (length out.old) (length work.old)
        (input shown_words whole.now (whole_check (words whole.now)) ∷ also (groups_check groups.now) ∷ input path_words path.now (path_check (words path.now)) ∷ []) }
    ensures { Responds (walk_grouped_call (length out.old) (length work.old) whole.now groups.now path.now node)
        (length out.old) out.new (number result) }
{
    let automaton = position_automaton(path, groups);
    let asked = Asked { whole, automaton };
    match find(&asked, node, out, work) {
        Some(best) => write(&asked, best, out, work),
        None => Err(Refusal::NoWalk),
    }
}

// The walk, or the refusal of a check.
fn answer(
    whole: &[u8],
    groups: &[u8],
    path: &[u8],
    node: u32,
    out: &mut [u8],
    work: &mut [u8],
) -> Result<(), Refusal>
    ensures { Responds (walk_grouped_call (length out.old) (length work.old) whole.now groups.now path.now node)
        (length out.old) out.new (number result) }
{
    check_inputs(
        WALK_WORDS,
        SHOWN_WORDS,
        whole,
        groups,
        path,
        out.len(),
        work,
    )?;
    show(whole, groups, path, node, out, work)
}

// The walk beside a listed node: of those that the path accepts, the one with the fewest links and then the lower edge word at the first difference.
pub fn walk_grouped(
    whole: &[u8],
    groups: &[u8],
    path: &[u8],
    node: u32,
    out: &mut [u8],
    work: &mut [u8],
) -> u32
    ensures { left result out.new work.new
        ≡ leaves (walk_grouped_call (length out.old) (length work.old) whole.now groups.now path.now node)
        (length out.old) (length work.old) }
{
    let outcome = answer(whole, groups, path, node, out, work);
    settle(outcome, out, work)
}

// Without groups: the same with our own.
pub fn walk(whole: &[u8], path: &[u8], node: u32, out: &mut [u8], work: &mut [u8]) -> u32
    ensures { left result out.new work.new
        ≡ leaves (walk_call (length out.old) (length work.old) whole.now path.now node)
        (length out.old) (length work.old) }
{
    let ours = our_groups();
    walk_grouped(whole, &ours, path, node, out, work)
}
