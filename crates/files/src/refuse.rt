// The checks that every call and every file shares.
ghost use Rattle.std.specs.Prelude.{◌≡◌, ◌/◌, length, get_or};
ghost use Rattle.files.specs.Word.{words};
ghost use Rattle.files.specs.Refuse.{◌then◌, room_check, size_check, header_check};
ghost use Rattle.files.specs.Refusal.{number};

use crate::field::{kind as kind_of, labels as labels_of, site as site_of, size};
use crate::limits::WORK_BYTES;
use crate::refusal::{Refusal, ensure};
use crate::word::word_at;

// 1: the output holds a result at its limit, and the working buffer is long enough.
pub fn check_room(limit: usize, out: usize, work: usize) -> Result<(), Refusal>
    ensures { number result ≡ room_check limit out work }
{
    ensure((limit <= out / 4) & (WORK_BYTES <= work), Refusal::NoRoom)
}

// 2: no words, over the limit, or bytes not in fours.
pub fn check_size(bytes: &[u8], limit: usize) -> Result<(), Refusal>
    ensures { number result ≡ size_check limit bytes.now }
{
    let n = bytes.len();
    ensure(
        (n % 4 == 0) & (0 < n) & (n / 4 <= limit),
        Refusal::WrongSize,
    )
}

// 3 and 4 of the header of a file of n words, whose kind uses the site and the labels field or not.
pub fn check_header(kind: u32, site: bool, labels: bool, n: usize, h: u32) -> Result<(), Refusal>
    ensures { number result ≡ header_check kind site labels n h }
{
    let clean = h / 0x4000 % 64 == 0;
    let of_site = site | (site_of(h) == 0);
    let of_labels = labels | (labels_of(h) == 0);
    let formed = (kind_of(h) == kind) & clean & of_site & of_labels;
    ensure(formed, Refusal::WrongHeader)?;
    ensure(size(h) as usize == n, Refusal::WrongLength)
}

// 2, 3 and 4 of a file by itself.
pub fn check_file(
    bytes: &[u8],
    limit: usize,
    kind: u32,
    site: bool,
    labels: bool,
) -> Result<(), Refusal>
    ensures { number result ≡ (size_check limit bytes.now
        then header_check kind site labels (length bytes.now / 4) (get_or (words bytes.now) 0 0)) }
{
    check_size(bytes, limit)?;
    let header = word_at(bytes, 0);
    check_header(kind, site, labels, bytes.len() / 4, header)
}
