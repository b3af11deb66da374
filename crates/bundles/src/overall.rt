// Checks over all files of a bundle.
ghost use Rattle.std.specs.Prelude.{◌≡◌, not, map, suc, ◌-◌, ◌≤◌, eqb, length};
ghost use Rattle.sets.specs.Sets.{filter};
ghost use Rattle.sets.specs.NodeSet.{node_set_bytes};
ghost use Rattle.files.specs.Word.{words};
ghost use Rattle.files.specs.Refuse.{◌unless◌};
ghost use Rattle.files.specs.Refusal.{number};
ghost use Rattle.files.specs.Outcome.{zeros};
ghost use Rattle.files.specs.Field.{kind_of, size_of, node_of};
ghost use Rattle.files.specs.Reply.{roots};
ghost use Rattle.files.specs.Bundle.{headers, headers_check, twice};
ghost use Rattle.bundles.specs.Stretch.{clashing};

use files::buffer::clear;
use files::field::{kind, labels, node, site, size};
use files::refusal::{Refusal, ensure};
use files::word::{Words, word_at};
use kinds::count::{Mark, count_kind};
use sets::node_set::{add, has as has_node};
use sets::states::{has as has_site, with};

// Whether a header's site was seen, or its n is another.
fn clashes(sites: u16, n: u32, h: u32) -> bool
    ensures { result ≡ clashing sites n h }
{
    has_site(sites, site(h)) | !(labels(h) == n)
}

// How many words on the next file starts, at least one.
fn step(h: u32) -> usize
    ensures { result ≡ suc (size_of h - 1) }
{
    size(h).max(1) as usize
}

// 12: a site twice, or a different n.
pub fn check_headers(bundle: &[u8]) -> Result<(), Refusal>
    ensures { number result ≡ headers_check (headers (length (words bundle.now)) (words bundle.now)) }
{
    let count = bundle.len() / 4;
    let n = labels(word_at(bundle, 0));
    let mut sites: u16 = 0;
    let mut start = 0;
    while start < count {
        let h = word_at(bundle, start);
        ensure(!clashes(sites, n, h), Refusal::MixedReplies)?;
        sites = with(sites, site(h));
        start += step(h);
    }
    Ok(())
}

// 7: not one root.
pub fn check_roots(bundle: &[u8]) -> Result<(), Refusal>
    ensures { number result ≡ (7 unless eqb (length (roots (words bundle.now))) 1) }
{
    let count = count_kind(bundle, 0, 8, Mark::Bit16);
    ensure(count == 1, Refusal::WrongRoot)
}

// Whether a node stands in two words of kind k; the nodes seen are a set in the cleared working buffer.
fn has_twice(bundle: &[u8], work: &mut [u8], k: u32) -> bool
    requires room { node_set_bytes ≤ length work.old }
    requires cleared { work.old ≡ zeros (length work.old) }
    ensures found { result ≡ twice (map node_of (filter (λ w. eqb (kind_of w) k) (words bundle.now))) }
    ensures work_len_unchanged { length work.new ≡ length work.old }
{
    for w in Words::of(bundle) {
        if kind(w) == k {
            let x = node(w);
            if has_node(work, 0, x) {
                return true;
            }
            add(work, 0, x);
        }
    }
    false
}

// 13: a node in two words of kind k.
pub fn check_twice(bundle: &[u8], work: &mut [u8], k: u32) -> Result<(), Refusal>
    requires { node_set_bytes ≤ length work.old }
    ensures checked { number result ≡ (13 unless not (twice (map node_of (filter (λ w. eqb (kind_of w) k) (words bundle.now))))) }
    ensures work_len_unchanged { length work.new ≡ length work.old }
{
    clear(work);
    ensure(!has_twice(bundle, work, k), Refusal::NodeTwice)
}
