// A part, checked word by word.
ghost use Rattle.std.specs.Prelude.{◌≡◌};
ghost use Rattle.files.specs.Word.{words};
ghost use Rattle.files.specs.Refuse.{◌then◌, size_check};
ghost use Rattle.files.specs.Refusal.{number};
ghost use Rattle.files.specs.Part.{next, node_check, edge_check, word_check, part_check};
ghost use Rattle.files.specs.Limits.{part_words};

use files::field::{door, node, root};
use files::limits::PART_WORDS;
use files::part::{PartSeen, is_edge, is_node, is_root};
use files::refusal::{Refusal, ensure};
use files::refuse::check_file;
use files::scan::{Seen, scan};
use files::word::Words;

fn check_node(seen: PartSeen, w: u32) -> Result<(), Refusal>
    ensures { number result ≡ node_check seen w }
{
    let clean = w / 0x8_0000 % 0x200 == 0;
    let ascends = seen.low <= node(w);
    let sole = !root(w) | (door(w) & !seen.rooted);
    ensure(clean, Refusal::WrongWord)?;
    ensure(ascends, Refusal::NotAscending)?;
    ensure(sole, Refusal::WrongRoot)
}

fn check_edge(seen: PartSeen, w: u32) -> Result<(), Refusal>
    ensures { number result ≡ edge_check seen w }
{
    ensure(0 < seen.low, Refusal::WrongWord)?;
    ensure(seen.last < w, Refusal::NotAscending)
}

fn check_word(seen: PartSeen, w: u32) -> Result<(), Refusal>
    ensures { number result ≡ word_check seen w }
{
    if is_node(w) {
        check_node(seen, w)
    } else if is_edge(w) {
        check_edge(seen, w)
    } else {
        Err(Refusal::WrongWord)
    }
}

fn seen_next(seen: PartSeen, w: u32) -> PartSeen
    ensures { result ≡ next seen w }
{
    PartSeen {
        last: w,
        low: if is_node(w) { node(w) + 1 } else { seen.low },
        rooted: seen.rooted | is_root(w),
    }
}

// A type of this crate, for the trait of another.
#[derive(Clone, Copy)]
struct Reader {
    seen: PartSeen,
}

impl Seen for Reader {
    ghost checked = { λ r w. word_check r.seen w };

    ghost after = { λ r w. record { seen = next r.seen w } };

    ghost ended = { λ r. 0 };

    fn check(self, w: u32) -> Result<(), Refusal> {
        check_word(self.seen, w)
    }

    fn then(self, w: u32) -> Reader {
        Reader {
            seen: seen_next(self.seen, w),
        }
    }

    fn end(self) -> Result<(), Refusal> {
        Ok(())
    }
}

// Refuses what is no part.
pub fn check_part(bytes: &[u8]) -> Result<(), Refusal>
    ensures { number result ≡ (size_check part_words bytes.now then part_check (words bytes.now)) }
{
    check_file(bytes, PART_WORDS, 1, true, false)?;
    let seen = PartSeen {
        last: 0,
        low: 0,
        rooted: false,
    };
    scan(Words::body(bytes), Reader { seen })
}
