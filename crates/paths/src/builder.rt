// The construction of a position automaton from the words of a path, in postfix: the operands that wait, the rows of what may follow each
// position, and the letters so far.
ghost use Rattle.std.specs.Prelude.{◌≡◌, ℕ, ◌<◌, length};
ghost use Rattle.files.specs.Limits.{most_waiting};
ghost use Rattle.files.specs.Groups.{load, Ranges};
ghost use Rattle.files.specs.Expr.{expr_check, operator_number};
ghost use Rattle.expressions.specs.Postfix.{put_empty, put_letter, make_then, make_or, make_star};
ghost use Rattle.expressions.specs.Labels.{operator_item, item};
ghost use Rattle.labels.specs.Interval.{HeldBy};
ghost use Rattle.paths.specs.Builder.{Starts, Replaced, Applicable, Does};

use super::letters::{Letters, add, none};
use super::operand::{Operand, empty, letter, or, star, then};
use super::table::link;
use files::expr::{ExprWord, Operator, read_expr};
use files::limits::MOST_WAITING;
use labels::interval::{LabelSet, resolve};

#[derive(Clone, Copy)]
pub struct Builder {
    pub operands: [Operand; MOST_WAITING],
    pub waiting: usize,
    pub rows: [u16; 16],
    pub letters: Letters,
}

pub fn start() -> Builder
    ensures { Starts result }
{
    let nothing = Operand {
        null: false,
        begins: 0,
        ends: 0,
    };
    Builder {
        operands: [nothing; MOST_WAITING],
        waiting: 0,
        rows: [0; 16],
        letters: none(),
    }
}

// The operand o in place of those that wait from index `at` on.
fn place(b: Builder, at: usize, o: Operand) -> Builder
    requires { (at < most_waiting) × (length b.operands ≡ most_waiting) }
    ensures { Replaced b at o result }
{
    let mut r = b;
    r.operands[at] = o;
    r.waiting = at + 1;
    r
}

fn put_nothing(b: Builder) -> Builder
    requires { Applicable put_empty b }
    ensures { Does put_empty b result }
{
    let at = b.waiting;
    place(b, at, empty())
}

fn put_label(b: Builder, s: LabelSet) -> Builder
    requires { Applicable (put_letter 0) b }
    ensures { (w : ℕ) → HeldBy w s → Does (put_letter w) b result }
{
    let at = b.waiting;
    let before = b.letters;
    let letters = add(before, s);
    let mut r = place(b, at, letter(letters.n));
    r.letters = letters;
    r
}

fn make_then(b: Builder) -> Builder
    requires { Applicable make_then b }
    ensures { Does make_then b result }
{
    let j = b.waiting - 1;
    let i = b.waiting - 2;
    let x = b.operands[i];
    let y = b.operands[j];
    let rows = b.rows;
    let linked = link(rows, x, y);
    let mut r = place(b, i, then(x, y));
    r.rows = linked;
    r
}

fn make_or(b: Builder) -> Builder
    requires { Applicable make_or b }
    ensures { Does make_or b result }
{
    let j = b.waiting - 1;
    let i = b.waiting - 2;
    let x = b.operands[i];
    let y = b.operands[j];
    place(b, i, or(x, y))
}

// What begins the operand may also follow what ends it.
fn make_star(b: Builder) -> Builder
    requires { Applicable make_star b }
    ensures { Does make_star b result }
{
    let i = b.waiting - 1;
    let x = b.operands[i];
    let rows = b.rows;
    let turned = link(rows, x, x);
    let mut r = place(b, i, star(x));
    r.rows = turned;
    r
}

fn operate(b: Builder, op: Operator) -> Builder
    requires { Applicable (operator_item (operator_number op)) b }
    ensures { Does (operator_item (operator_number op)) b result }
{
    match op {
        Operator::Empty => put_nothing(b),
        Operator::Then => make_then(b),
        Operator::Or => make_or(b),
        Operator::Star => make_star(b),
    }
}

// One word more, with the groups loaded.
pub fn step(b: Builder, groups: &[u32], w: u32) -> Builder
    requires ranges { Ranges groups.now × (expr_check w ≡ 0) }
    requires applicable { Applicable (item (load groups.now w)) b }
    ensures { Does (item (load groups.now w)) b result }
{
    match read_expr(w) {
        Ok(ExprWord::Label(l)) => put_label(b, resolve(groups, l)),
        Ok(ExprWord::Operator(op)) => operate(b, op),
        Err(_) => b,
    }
}
