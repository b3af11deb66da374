// The call that lists the called pairs of a bundle of first replies.
ghost use Rattle.std.specs.Prelude.{◌≡◌, [], ◌∷◌, ◌/◌, ◌≤◌, length, IfOk};
ghost use Rattle.files.specs.Word.{words};
ghost use Rattle.files.specs.Refusal.{number};
ghost use Rattle.files.specs.Outcome.{left, leaves};
ghost use Rattle.files.specs.Bundle.{first_bundle_check};
ghost use Rattle.files.specs.Limits.{reply_words, bundle_words};
ghost use Rattle.output.specs.Writer.{Filed};
ghost use Rattle.output.specs.Frame.{RoomFor, input, also, Checked, Passed, Responds};
ghost use Rattle.hub_calls.specs.Listing.{Listable};
ghost use Rattle.hub_calls.specs.CallList.{stray_check, call_list, call_list_call};

use crate::listing::write_calls;
use bundles::bundle::{Trip, check_bundle};
use door_index::index::index_doors;
use files::buffer::clear;
use files::field::labels;
use files::limits::REPLY_WORDS;
use files::refusal::{Refusal, ensure};
use files::refuse::check_room;
use files::word::word_at;
use hub_search::search::search;
use output::close::close;
use output::settle::settle;

// Searches the called pairs of an accepted bundle, and refuses with 14 if one of them names no door. Gives the number of doors in the index.
fn find(bundle: &[u8], out: &mut [u8], work: &mut [u8]) -> Result<usize, Refusal>
    requires room_for { RoomFor reply_words (length out.old) (length work.old) × (length bundle.now / 4 ≤ bundle_words) }
    requires accepted { first_bundle_check (words bundle.now) ≡ 0 }
    ensures checked { number result ≡ stray_check (words bundle.now) }
    ensures listable { IfOk result (λ doors. Listable (words bundle.now) work.new doors) }
{
    clear(out);
    clear(work);
    let doors = index_doors(bundle, out, work);
    let stray = search(bundle, out, work, doors);
    ensure(!stray, Refusal::Stray)?;
    Ok(doors)
}

// The checks in their order: the buffers, the bundle, the pairs that it calls. Gives the number of doors in the index.
fn check(bundle: &[u8], out: &mut [u8], work: &mut [u8]) -> Result<usize, Refusal>
    ensures checked { Checked reply_words (length out.old) (length work.old)
        (input bundle_words bundle.now (first_bundle_check (words bundle.now)) ∷ also (stray_check (words bundle.now)) ∷ []) (number result) }
    ensures listable { IfOk result (λ doors. Listable (words bundle.now) work.new doors) }
{
    check_room(REPLY_WORDS, out.len(), work.len())?;
    check_bundle(bundle, Trip::First, work)?;
    find(bundle, out, work)
}

// Writes the call list. Refuses one over its limit, and no other.
fn write(bundle: &[u8], out: &mut [u8], work: &[u8], doors: usize) -> Result<(), Refusal>
    requires passed { Passed reply_words (length out.old) (length work.now)
        (input bundle_words bundle.now (first_bundle_check (words bundle.now)) ∷ also (stray_check (words bundle.now)) ∷ []) }
    requires listable { Listable (words bundle.now) work.now doors }
    ensures { Filed reply_words (length out.old) (call_list (words bundle.now)) out.new (number result) }
{
    clear(out);
    let count = write_calls(bundle, work, doors, out, 1);
    let n = labels(word_at(bundle, 0));
    close(11, 0, n, REPLY_WORDS, count, out)
}

// The call list, or the refusal of a check.
fn answer(bundle: &[u8], out: &mut [u8], work: &mut [u8]) -> Result<(), Refusal>
    ensures { Responds (call_list_call (length out.old) (length work.old) bundle.now) (length out.old) out.new (number result) }
{
    let doors = check(bundle, out, work)?;
    write(bundle, out, work, doors)
}

// The call list of a bundle of first replies.
pub fn call_list(bundle: &[u8], out: &mut [u8], work: &mut [u8]) -> u32
    ensures { left result out.new work.new
        ≡ leaves (call_list_call (length out.old) (length work.old) bundle.now) (length out.old) (length work.old) }
{
    let outcome = answer(bundle, out, work);
    settle(outcome, out, work)
}
