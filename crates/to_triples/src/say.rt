// What triples can't say: a stopped node, or a node other than the root with no link in or out. The targets are kept as a set in the working
// buffer, and a node has links out if an edge word stands behind its own.
ghost use Rattle.std.specs.Prelude.{◌≡◌, ◌≤◌, ◌<◌, length};
ghost use Rattle.sets.specs.Sets.{any, span};
ghost use Rattle.sets.specs.NodeSet.{has_node, node_set_bytes};
ghost use Rattle.files.specs.Word.{words};
ghost use Rattle.files.specs.Refusal.{number};
ghost use Rattle.files.specs.Part.{whole_check};
ghost use Rattle.files.specs.Limits.{part_words};
ghost use Rattle.triples.specs.Triple.{say_check};
ghost use Rattle.to_triples.specs.Say.{unsaid_at};

use files::buffer::clear;
use files::field::{node, root, stopped};
use files::part::{is_edge, is_node};
use files::refusal::{Refusal, ensure};
use files::word::word_at;
use kinds::mark::mark_kind;
use sets::node_set::has;

// Whether word i is of a node that triples can't say.
fn is_unsaid(whole: &[u8], work: &[u8], i: usize) -> bool
    requires { (node_set_bytes ≤ length work.now) × (i < part_words) }
    ensures { result ≡ unsaid_at (has_node work.now 0) (words whole.now) i }
{
    let w = word_at(whole, i);
    let linked = is_edge(word_at(whole, i + 1)) | has(work, 0, node(w));
    is_node(w) & (stopped(w) | !(root(w) | linked))
}

// Whether there is such a word.
fn has_unsaid(whole: &[u8], work: &[u8]) -> bool
    requires { (node_set_bytes ≤ length work.now) × (length (words whole.now) ≤ part_words) }
    ensures { result ≡ any (unsaid_at (has_node work.now 0) (words whole.now)) (span 0 (length (words whole.now))) }
{
    (0..whole.len() / 4).any(|i| is_unsaid(whole, work, i))
}

// 19 of an accepted whole. The working buffer is used and not cleared after.
pub fn check_said(whole: &[u8], work: &mut [u8]) -> Result<(), Refusal>
    requires { (node_set_bytes ≤ length work.old) × (length (words whole.now) ≤ part_words) × (whole_check (words whole.now) ≡ 0) }
    ensures { number result ≡ say_check (words whole.now) }
{
    clear(work);
    mark_kind(whole, work, 3);
    let unsaid = has_unsaid(whole, work);
    ensure(!unsaid, Refusal::Unsaid)
}
