// What may follow each position, a row of states for each.
ghost use Rattle.std.specs.Prelude.{◌≡◌};
ghost use Rattle.expressions.specs.Fragments.{link};
ghost use Rattle.paths.specs.Operand.{fragment_in, table_in};

use super::operand::Operand;
use sets::states::StateSet;

// What begins b may now also follow what ends a.
pub fn link(rows: [u16; 16], a: Operand, b: Operand) -> [u16; 16]
    ensures { table_in result ≡ link (table_in rows) (fragment_in a) (fragment_in b) }
{
    let mut t = rows;
    for q in StateSet(a.ends) {
        let at = q as usize;
        t[at] = t[at] | b.begins;
    }
    t
}
