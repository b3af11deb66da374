// The end of every file that a call writes: the header, when the length is known.
ghost use Rattle.std.specs.Prelude.{◌≡◌, ◌*◌, ◌≤◌, ◌<◌, length};
ghost use Rattle.files.specs.Limits.{final_words};
ghost use Rattle.files.specs.Refusal.{number};
ghost use Rattle.output.specs.Frame.{closed_at, Closes};

use files::make::header;
use files::refusal::{Refusal, ensure};
use files::word::put_word;

// Puts the header of a file that stands from word `at` to before word `end`, where that is within the limit.
pub fn close_at(kind: u32, site: u32, n: u32, limit: usize, at: usize, end: usize, out: &mut [u8])
    requires { (kind < 16) × (site < 16) × (n < 16) × (at ≤ end) }
    ensures { out.new ≡ closed_at kind site n limit at end out.old }
{
    if end <= limit {
        let size = ((end - at) % 0x4000) as u32;
        put_word(out, at, header(kind, site, n, size));
    }
}

// The header of a file of `count` words, with itself, in the place of word 0. Refuses one over its limit, and no other.
pub fn close(
    kind: u32,
    site: u32,
    n: u32,
    limit: usize,
    count: usize,
    out: &mut [u8],
) -> Result<(), Refusal>
    requires { (kind < 16) × (site < 16) × (n < 16) × (0 < limit) × (limit ≤ final_words) × (4 * limit ≤ length out.old) }
    ensures { Closes kind site n limit out.old count out.new (number result) }
{
    close_at(kind, site, n, limit, 0, count, out);
    ensure(count <= limit, Refusal::TooLong)
}
