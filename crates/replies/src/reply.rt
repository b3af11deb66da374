// A first reply, checked word by word.
ghost use Rattle.std.specs.Prelude.{◌≡◌, get_or, drop};
ghost use Rattle.files.specs.Word.{words};
ghost use Rattle.files.specs.Refusal.{number};
ghost use Rattle.files.specs.Reply.{next, door_check, row_check, reach_check, word_check, end_check, reply_check};

use files::field::{labels, node, state};
use files::refusal::{Refusal, ensure};
use files::reply::{ReplySeen, door_root, is_door_word, is_reach, is_row};
use files::scan::{Seen, scan};
use files::word::{Words, word_at};

// An empty row shows at the word after it.
fn check_door(seen: ReplySeen, w: u32) -> Result<(), Refusal>
    ensures { number result ≡ door_check seen w }
{
    let formed = (w / 0x2_0000 % 0x800 == 0) & !is_row(seen.last);
    let sole = !door_root(w) | !seen.rooted;
    ensure(formed, Refusal::WrongWord)?;
    ensure(seen.low <= node(w), Refusal::NotAscending)?;
    ensure(sole, Refusal::WrongRoot)
}

fn check_row(n: u32, seen: ReplySeen, w: u32) -> Result<(), Refusal>
    ensures { number result ≡ row_check n seen w }
{
    let q = state(w);
    let formed = (w / 16 % 0x100_0000 == 0) & (0 < seen.low) & !is_row(seen.last);
    ensure(formed, Refusal::WrongWord)?;
    ensure(q <= n, Refusal::StateTooHigh)?;
    ensure(seen.state <= q, Refusal::NotAscending)
}

fn check_reach(n: u32, seen: ReplySeen, w: u32) -> Result<(), Refusal>
    ensures { number result ≡ reach_check n seen w }
{
    let formed = (w / 0x10_0000 % 0x100 == 0) & (is_row(seen.last) | is_reach(seen.last));
    ensure(formed, Refusal::WrongWord)?;
    ensure(state(w) <= n, Refusal::StateTooHigh)?;
    ensure(seen.last < w, Refusal::NotAscending)
}

fn check_word(n: u32, seen: ReplySeen, w: u32) -> Result<(), Refusal>
    ensures { number result ≡ word_check n seen w }
{
    if is_door_word(w) {
        check_door(seen, w)
    } else if is_row(w) {
        check_row(n, seen, w)
    } else if is_reach(w) {
        check_reach(n, seen, w)
    } else {
        Err(Refusal::WrongWord)
    }
}

fn seen_next(seen: ReplySeen, w: u32) -> ReplySeen
    ensures { result ≡ next seen w }
{
    if is_door_word(w) {
        ReplySeen {
            last: w,
            low: node(w) + 1,
            state: 0,
            rooted: seen.rooted | door_root(w),
        }
    } else if is_row(w) {
        ReplySeen {
            last: w,
            state: state(w) + 1,
            ..seen
        }
    } else {
        ReplySeen { last: w, ..seen }
    }
}

// An empty row at the end.
fn check_end(seen: ReplySeen) -> Result<(), Refusal>
    ensures { number result ≡ end_check seen }
{
    ensure(!is_row(seen.last), Refusal::WrongWord)
}

// The highest state that the reply's header allows, and what was seen of the words.
#[derive(Clone, Copy)]
struct Reader {
    n: u32,
    seen: ReplySeen,
}

impl Seen for Reader {
    ghost checked = { λ r w. word_check r.n r.seen w };

    ghost after = { λ r w. record { n = r.n; seen = next r.seen w } };

    ghost ended = { λ r. end_check r.seen };

    fn check(self, w: u32) -> Result<(), Refusal> {
        check_word(self.n, self.seen, w)
    }

    fn then(self, w: u32) -> Reader {
        Reader {
            n: self.n,
            seen: seen_next(self.seen, w),
        }
    }

    fn end(self) -> Result<(), Refusal> {
        check_end(self.seen)
    }
}

// The words after the header of a first reply.
pub fn check_reply(file: &[u8]) -> Result<(), Refusal>
    ensures { number result ≡ reply_check (get_or (words file.now) 0 0) (drop 1 (words file.now)) }
{
    let n = labels(word_at(file, 0));
    let seen = ReplySeen {
        last: 0,
        low: 0,
        state: 0,
        rooted: false,
    };
    scan(Words::body(file), Reader { n, seen })
}
