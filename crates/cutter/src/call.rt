// The cutter's call: the targets of the other sites' edges go into a set of nodes in the working buffer, then the site's own words are
// written, each node with its door bit by that set.
ghost use Rattle.std.specs.Prelude.{◌≡◌, [], ◌∷◌, length, drop};
ghost use Rattle.files.specs.Word.{words};
ghost use Rattle.files.specs.Refusal.{number};
ghost use Rattle.files.specs.Outcome.{left, leaves};
ghost use Rattle.files.specs.Part.{whole_check};
ghost use Rattle.files.specs.Cuts.{cut_check};
ghost use Rattle.files.specs.Limits.{part_words};
ghost use Rattle.output.specs.Writer.{Filed};
ghost use Rattle.output.specs.Frame.{input, also, Checked, Passed, Responds};
ghost use Rattle.cutter.specs.Cut.{cut as theCut, cut_call};

use crate::marks::write_words;
use crate::targets::collect_targets;
use files::buffer::clear;
use files::limits::PART_WORDS;
use files::refusal::Refusal;
use files::refuse::check_room;
use output::close::close;
use output::settle::settle;
use wholes::cuts::check_cuts;
use wholes::whole::check_whole;

// The checks in their order: the buffers, the whole, the cut list and the site.
fn check(whole: &[u8], cuts: &[u8], site: u32, out: usize, work: &mut [u8]) -> Result<(), Refusal>
    ensures { Checked part_words out (length work.old)
        (input part_words whole.now (whole_check (words whole.now)) ∷ also (cut_check (drop 1 (words whole.now)) cuts.now site) ∷ []) (number result) }
{
    check_room(PART_WORDS, out, work.len())?;
    check_whole(whole, work)?;
    check_cuts(whole, cuts, site)
}

// Writes the site's part. Refuses one over its limit, and no other.
fn write(
    whole: &[u8],
    cuts: &[u8],
    site: u32,
    out: &mut [u8],
    work: &mut [u8],
) -> Result<(), Refusal>
    requires { Passed part_words (length out.old) (length work.old)
        (input part_words whole.now (whole_check (words whole.now)) ∷ also (cut_check (drop 1 (words whole.now)) cuts.now site) ∷ []) }
    ensures { Filed part_words (length out.old) (theCut (words whole.now) cuts.now site) out.new (number result) }
{
    collect_targets(whole, cuts, site, work);
    clear(out);
    let count = write_words(whole, cuts, site, work, out, 1);
    close(1, site, 0, PART_WORDS, count, out)
}

// The site's part, or the refusal of a check.
fn answer(
    whole: &[u8],
    cuts: &[u8],
    site: u32,
    out: &mut [u8],
    work: &mut [u8],
) -> Result<(), Refusal>
    ensures { Responds (cut_call (length out.old) (length work.old) whole.now cuts.now site)
        (length out.old) out.new (number result) }
{
    check(whole, cuts, site, out.len(), work)?;
    write(whole, cuts, site, out, work)
}

// Cuts a site's part out of a whole.
pub fn cut(whole: &[u8], cuts: &[u8], site: u32, out: &mut [u8], work: &mut [u8]) -> u32
    ensures { left result out.new work.new ≡ leaves
        (cut_call (length out.old) (length work.old) whole.now cuts.now site)
        (length out.old) (length work.old) }
{
    let outcome = answer(whole, cuts, site, out, work);
    settle(outcome, out, work)
}
