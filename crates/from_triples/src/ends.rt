// The ends of the triples, as a set of nodes in the second 8,192 bytes of the working buffer.
ghost use Rattle.std.specs.Prelude.{ℕ, ◌≤◌, ◌<◌, length};
ghost use Rattle.files.specs.Word.{words};
ghost use Rattle.from_triples.specs.Ends.{nodes_end, EndsFit, EndsAdded, AllAdded};

use files::word::word_at;
use sets::node_set::add;

// Where the set begins.
pub const NODES: usize = 8192;

// Adds both ends of triple i.
fn add_ends(triples: &[u8], work: &mut [u8], i: usize)
    requires { (nodes_end ≤ length work.old) × (i < 65536) × EndsFit (words triples.now) i }
    ensures { EndsAdded (words triples.now) i work.old work.new }
{
    let at = 3 * i;
    add(work, NODES, word_at(triples, at + 1));
    add(work, NODES, word_at(triples, at + 3));
}

// Adds the ends of the first n triples.
pub fn add_all(triples: &[u8], work: &mut [u8], n: usize)
    requires { (nodes_end ≤ length work.old) × (n < 65536) × ((i : ℕ) → i < n → EndsFit (words triples.now) i) }
    ensures { AllAdded (words triples.now) n work.old work.new }
{
    for i in 0..n {
        add_ends(triples, work, i);
    }
}
