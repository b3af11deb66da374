// Where the desks stand: those before `next` have their numbers, and their replies are put in or not.
ghost use Rattle.std.specs.Prelude.{◌≡◌, ◌*◌, ◌≤◌, ◌<◌, length};
ghost use Rattle.choices.specs.Choice.{short_words};
ghost use Rattle.desks.specs.Owns.{short_part};
ghost use Rattle.desks.specs.Stands.{Enters, Settles, Erased};

use files::buffer::clear;
use files::numbered::Numbered;

// The longest reply that is always put in.
pub const SHORT_WORDS: usize = 512;

// The numbers are bytes that are entered at the top, so that the first desk's is the lowest once there are eight; `words` are put in; `later` are
// the words of short replies of desks from `next` on.
#[derive(Clone, Copy)]
pub struct Stand {
    pub numbers: u64,
    pub next: usize,
    pub words: usize,
    pub later: usize,
}

fn enter(numbers: u64, n: u32) -> u64
    requires { n < 256 }
    ensures { Enters numbers n result }
{
    numbers / 256 + 0x100000000000000 * (n as u64)
}

// The next desk comes to this; with it so many words are put in, and so many are kept for desks to come.
pub fn settle_desk<N: Numbered>(s: Stand, outcome: N, words: usize, later: usize) -> Stand
    requires { (N.number outcome < 256) × (s.next < 8) }
    ensures { Settles s (N.number outcome) words later result }
{
    Stand {
        numbers: enter(s.numbers, outcome.number()),
        next: s.next + 1,
        words,
        later,
    }
}

// Takes away what stands behind the first `at` words of the output.
pub fn erase(out: &mut [u8], at: usize)
    requires { 4 * at ≤ length out.old }
    ensures { Erased at out.old out.new }
{
    clear(&mut out[4 * at..]);
}

// The words of a reply that count as those of a short one.
pub fn short_part(size: usize) -> usize
    ensures is { result ≡ short_part size }
    ensures few { result ≤ short_words }
{
    if size <= SHORT_WORDS { size } else { 0 }
}
