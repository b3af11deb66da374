// A whole: a part with a root and every target among its nodes. The nodes are kept as a set in the working buffer, so that
// each target is looked up at once.
ghost use Rattle.std.specs.Prelude.{◌≡◌, ◌≤◌, length};
ghost use Rattle.std.specs.List.{list_any};
ghost use Rattle.sets.specs.NodeSet.{has_node, node_set_bytes};
ghost use Rattle.files.specs.Word.{words};
ghost use Rattle.files.specs.Refuse.{◌then◌, size_check};
ghost use Rattle.files.specs.Refusal.{number};
ghost use Rattle.files.specs.Part.{lost, end_check, whole_check};
ghost use Rattle.files.specs.Limits.{part_words};

use files::buffer::clear;
use files::field::target;
use files::part::is_edge;
use files::refusal::{Refusal, ensure};
use files::word::Words;
use kinds::count::{Mark, count_kind};
use kinds::mark::mark_kind;
use readers::part::check_part;
use sets::node_set::has;

// Whether a word is an edge whose target is not in the set.
fn is_lost(work: &[u8], w: u32) -> bool
    requires { node_set_bytes ≤ length work.now }
    ensures { result ≡ lost (has_node work.now 0) w }
{
    is_edge(w) & !has(work, 0, target(w))
}

// Whether some edge's target is not in the set.
fn has_lost(bytes: &[u8], work: &[u8]) -> bool
    requires { node_set_bytes ≤ length work.now }
    ensures { result ≡ list_any (lost (has_node work.now 0)) (words bytes.now) }
{
    Words::of(bytes).any(|w| is_lost(work, w))
}

// At the end of a part: 7 and 8 of a whole.
fn check_end(bytes: &[u8], work: &mut [u8]) -> Result<(), Refusal>
    requires { node_set_bytes ≤ length work.old }
    ensures { number result ≡ end_check (words bytes.now) }
{
    clear(work);
    mark_kind(bytes, work, 2);
    let roots = count_kind(bytes, 0, 2, Mark::Bit17);
    ensure(0 < roots, Refusal::WrongRoot)?;
    ensure(!has_lost(bytes, work), Refusal::LostTarget)
}

// Refuses what is no whole. The working buffer is used and not cleared after.
pub fn check_whole(bytes: &[u8], work: &mut [u8]) -> Result<(), Refusal>
    requires { node_set_bytes ≤ length work.old }
    ensures { number result ≡ (size_check part_words bytes.now then whole_check (words bytes.now)) }
{
    check_part(bytes)?;
    check_end(bytes, work)
}
