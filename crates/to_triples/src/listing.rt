// The triples of a whole's edge words, in their order, which is that of source, label, target.
ghost use Rattle.std.specs.Prelude.{[], ◌∷◌, ◌*◌, ◌≤◌, length, drop};
ghost use Rattle.files.specs.Word.{words};
ghost use Rattle.files.specs.Field.{label_of, target_of};
ghost use Rattle.files.specs.Limits.{triple_words};
ghost use Rattle.output.specs.Writer.{Writes};
ghost use Rattle.triples.specs.Triple.{keys_from, words_of};

use files::field::{label, node, target};
use files::limits::TRIPLE_WORDS;
use files::part::is_node;
use files::word::Words;
use output::writer::push;

// The triple of an edge word of node x.
fn write_triple(x: u32, w: u32, out: &mut [u8], start: usize) -> usize
    requires { 4 * triple_words ≤ length out.old }
    ensures { Writes triple_words (length out.old) out.old start out.new result (x ∷ label_of w ∷ target_of w ∷ []) }
{
    let one = push(out, TRIPLE_WORDS, start, x);
    let two = push(out, TRIPLE_WORDS, one, label(w));
    push(out, TRIPLE_WORDS, two, target(w))
}

// The triples of all edge words behind the header.
pub fn write_triples(whole: &[u8], out: &mut [u8], start: usize) -> usize
    requires { 4 * triple_words ≤ length out.old }
    ensures { Writes triple_words (length out.old) out.old start out.new result (words_of (keys_from 0 (drop 1 (words whole.now)))) }
{
    let mut count = start;
    let mut x = 0;
    for w in Words::body(whole) {
        if is_node(w) {
            x = node(w);
        } else {
            count = write_triple(x, w, out, count);
        }
    }
    count
}
