// A bundle, read file by file: each is at the front of what is left, and says where the next one starts.
ghost use Rattle.std.specs.Prelude.{◌≡◌, ◌≤◌, length, get_or, drop, IfOk};
ghost use Rattle.sets.specs.NodeSet.{node_set_bytes};
ghost use Rattle.files.specs.Word.{words};
ghost use Rattle.files.specs.Refuse.{◌then◌, size_check};
ghost use Rattle.files.specs.Refusal.{number};
ghost use Rattle.files.specs.Field.{size_of};
ghost use Rattle.files.specs.Bundle.{first_over_check, second_over_check};
ghost use Rattle.files.specs.Limits.{bundle_words};
ghost use Rattle.bundles.specs.Stretch.{head_check, front_check, kind_in, body_in, files_in, over_in, bundle_in};

use crate::overall::{check_headers, check_roots, check_twice};
use files::field::size;
use files::limits::{BUNDLE_WORDS, REPLY_WORDS};
use files::refusal::{Refusal, ensure};
use files::refuse::{check_header, check_size};
use files::word::word_at;
use replies::answers::check_answers;
use replies::reply::check_reply;

// Which replies a bundle is of.
#[derive(Clone, Copy)]
pub enum Trip {
    First,
    Second,
}

fn kind_in(trip: Trip) -> u32
    ensures { result ≡ kind_in trip }
{
    match trip {
        Trip::First => 7,
        Trip::Second => 13,
    }
}

// The words after the header.
fn check_words(file: &[u8], trip: Trip) -> Result<(), Refusal>
    ensures { number result ≡ body_in trip (get_or (words file.now) 0 0) (drop 1 (words file.now)) }
{
    match trip {
        Trip::First => check_reply(file),
        Trip::Second => check_answers(file),
    }
}

// The header of a file in front of n words.
fn check_head(kind: u32, n: usize, h: u32) -> Result<(), Refusal>
    ensures { number result ≡ head_check kind n h }
{
    let len = size(h) as usize;
    check_header(kind, true, true, len, h)?;
    let fits = (0 < len) & (len <= REPLY_WORDS) & (len <= n);
    ensure(fits, Refusal::WrongLength)
}

// The file at the front of a stretch: how many words on the next file starts.
pub fn read_file(stretch: &[u8], trip: Trip) -> Result<usize, Refusal>
    ensures checked { number result ≡ front_check (kind_in trip) (body_in trip) (words stretch.now) }
    ensures next { IfOk result (λ len. len ≡ size_of (get_or (words stretch.now) 0 0)) }
{
    let h = word_at(stretch, 0);
    check_head(kind_in(trip), stretch.len() / 4, h)?;
    let len = size(h) as usize;
    let end = 4 * len;
    check_words(&stretch[..end], trip)?;
    Ok(len)
}

// The bundle's files one after another.
fn check_files(bundle: &[u8], trip: Trip) -> Result<(), Refusal>
    ensures { number result ≡ files_in trip (words bundle.now) }
{
    let mut rest = bundle;
    while 4 <= rest.len() {
        let len = read_file(rest, trip)?;
        let end = 4 * len;
        rest = &rest[end..];
    }
    Ok(())
}

// 2, then file by file.
fn check_each(bundle: &[u8], trip: Trip) -> Result<(), Refusal>
    ensures { number result ≡ (size_check bundle_words bundle.now then files_in trip (words bundle.now)) }
{
    check_size(bundle, BUNDLE_WORDS)?;
    check_files(bundle, trip)
}

// Over all files of a bundle of first replies: 12, 7, 13.
fn check_first_over(bundle: &[u8], work: &mut [u8]) -> Result<(), Refusal>
    requires { node_set_bytes ≤ length work.old }
    ensures checked { number result ≡ first_over_check (words bundle.now) }
    ensures work_len_unchanged { length work.new ≡ length work.old }
{
    check_headers(bundle)?;
    check_roots(bundle)?;
    check_twice(bundle, work, 8)
}

// Over all files of a bundle of second replies: 12, 13.
fn check_second_over(bundle: &[u8], work: &mut [u8]) -> Result<(), Refusal>
    requires { node_set_bytes ≤ length work.old }
    ensures checked { number result ≡ second_over_check (words bundle.now) }
    ensures work_len_unchanged { length work.new ≡ length work.old }
{
    check_headers(bundle)?;
    check_twice(bundle, work, 14)
}

fn check_over(bundle: &[u8], trip: Trip, work: &mut [u8]) -> Result<(), Refusal>
    requires { node_set_bytes ≤ length work.old }
    ensures checked { number result ≡ over_in trip (words bundle.now) }
    ensures work_len_unchanged { length work.new ≡ length work.old }
{
    match trip {
        Trip::First => check_first_over(bundle, work),
        Trip::Second => check_second_over(bundle, work),
    }
}

// Refuses what is no bundle of a trip's replies.
pub fn check_bundle(bundle: &[u8], trip: Trip, work: &mut [u8]) -> Result<(), Refusal>
    requires { node_set_bytes ≤ length work.old }
    ensures checked { number result ≡ (size_check bundle_words bundle.now then bundle_in trip (words bundle.now)) }
    ensures work_len_unchanged { length work.new ≡ length work.old }
{
    check_each(bundle, trip)?;
    check_over(bundle, trip, work)
}
