// Files one after another, found by the lengths that their headers say. How many a bundle may have is the caller's to say.
ghost use Rattle.std.specs.Prelude.{◌≡◌, ◌≤◌, length};
ghost use Rattle.files.specs.Refusal.{number};
ghost use Rattle.path_bundles.specs.Split.{bytes_in, file_in, behind, split, uses_up, split_check};
ghost use Rattle.path_bundles.specs.Place.{file_at};

use files::field::size;
use files::limits::BUNDLE_WORDS;
use files::refusal::{Refusal, ensure};
use files::word::word_at;

// How many bytes the file at the front has, as its header says.
fn bytes_in(stretch: &[u8]) -> usize
    ensures { result ≡ bytes_in stretch.now }
{
    4 * (size(word_at(stretch, 0)) as usize)
}

// The file at the front. A header that says more than there is gets all.
pub fn file_in(stretch: &[u8]) -> &[u8]
    ensures is { result.now ≡ file_in stretch.now }
    ensures within { length result.now ≤ length stretch.now }
{
    let n = bytes_in(stretch);
    if n <= stretch.len() {
        &stretch[..n]
    } else {
        stretch
    }
}

// What stands behind the file at the front: nothing, where its header says more than there is.
fn behind(stretch: &[u8]) -> &[u8]
    ensures { result.now ≡ behind stretch.now }
{
    let n = bytes_in(stretch);
    if n <= stretch.len() {
        &stretch[n..]
    } else {
        &[]
    }
}

// Whether at most `most` files use up the bytes.
fn uses_up(bundle: &[u8], most: usize) -> bool
    ensures { result ≡ uses_up most bundle.now }
{
    let mut rest = bundle;
    for _ in 0..most {
        if rest.is_empty() {
            return true;
        }
        let n = bytes_in(rest);
        let fits = (0 < n) & (n <= rest.len());
        if !fits {
            return false;
        }
        rest = behind(rest);
    }
    rest.is_empty()
}

// 17 of a bundle of paths.
pub fn check_split(bundle: &[u8], most: usize) -> Result<(), Refusal>
    ensures { number result ≡ split_check most bundle.now }
{
    let n = bundle.len();
    ensure(
        (0 < n) & (n / 4 <= BUNDLE_WORDS) & uses_up(bundle, most),
        Refusal::WrongFiles,
    )
}

// The file of an index, the first being 0; empty past the last.
pub fn file_at(bundle: &[u8], index: usize) -> &[u8]
    ensures { result.now ≡ file_at index bundle.now }
{
    let mut rest = bundle;
    for _ in 0..index {
        rest = behind(rest);
    }
    file_in(rest)
}

// How many files there are, as far as `most`.
pub fn count_files(bundle: &[u8], most: usize) -> usize
    ensures { result ≡ length (split most bundle.now) }
{
    let mut rest = bundle;
    for count in 0..most {
        if rest.is_empty() {
            return count;
        }
        rest = behind(rest);
    }
    most
}
