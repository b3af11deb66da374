// The rows behind a door, word by word: which of them are followed.
ghost use Rattle.std.specs.Prelude.{◌≡◌, not, ◌&&◌, ℕ, ◌<◌, eqb};
ghost use Rattle.sets.specs.States.{has_state};
ghost use Rattle.files.specs.Field.{pair_of, pair_node};
ghost use Rattle.files.specs.Reply.{is_reach};
ghost use Rattle.row_scan.specs.Following.{in_rows, TurnsRow};

use files::field::state;
use files::reply::{is_reach, is_row};
use sets::states::{has, minus, with};

// The states whose rows are still to come, and whether the row at hand is followed.
#[derive(Clone, Copy)]
pub struct Rows {
    pub left: u16,
    pub on: bool,
}

// Whether a word belongs to a door's rows.
pub fn in_rows(w: u32) -> bool
    ensures { result ≡ in_rows w }
{
    is_row(w) | is_reach(w)
}

// The set without a state.
fn without(s: u16, q: u32) -> u16
    requires { q < 16 }
    ensures { (p : ℕ) → has_state result p ≡ (has_state s p && not (eqb p q)) }
{
    minus(s, with(0, q))
}

// What a word of the rows changes: a row word begins a row. Of two rows of a state the first counts.
pub fn turn(rows: Rows, w: u32) -> Rows
    ensures { TurnsRow rows w result }
{
    if is_row(w) {
        let q = state(w);
        let left = rows.left;
        return Rows {
            left: without(left, q),
            on: has(left, q),
        };
    }
    rows
}

// Whether a word is a reach word of a row that is followed.
pub fn is_followed(rows: Rows, w: u32) -> bool
    ensures { result ≡ (rows.on && is_reach w) }
{
    rows.on & is_reach(w)
}

// The node of a reach word.
pub fn reach_node(w: u32) -> u32
    ensures { result ≡ pair_node (pair_of w) }
{
    w % 0x10_0000 / 16
}
