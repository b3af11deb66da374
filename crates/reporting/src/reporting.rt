// The rows of a first reply: at each door, for each state, a search inside the part and what it reached outside. The reply's length is a value
// that runs along the doors, and `advance` alone moves it: by one for a door word, by its pairs and one for a row.
ghost use Rattle.std.specs.Prelude.{◌≡◌, true, ◌+◌, ◌<◌, ◌≤◌, length, get_or};
ghost use Rattle.files.specs.Word.{words};
ghost use Rattle.files.specs.Field.{node_of, root_of, door_word};
ghost use Rattle.files.specs.Part.{is_door};
ghost use Rattle.slots.specs.Slots.{node_at};
ghost use Rattle.reporting.specs.Reporting.{MayReport, Reports, row_at, rows_below, door_at, words_at, words_below, DoorAdds, RunsPast};

use files::field::{node, root};
use files::limits::REPLY_WORDS;
use files::make::door_word;
use files::part::is_door;
use files::word::word_at;
use listing::rows::{row_length, write_row};
use output::writer::{advance, push};
use part_search::search::{reset, run, seed};

// The row of state q at the door at position i; the reply grows by its pairs and its row word. Where nothing outside was reached the marks
// stay: what they stand for leads nowhere, and no later search has to enter it again.
fn report_row(
    part: &[u8],
    follow: &[u16; 16],
    work: &mut [u8],
    outside: usize,
    i: usize,
    q: u32,
    out: &mut [u8],
    start: usize,
) -> usize
    requires { MayReport (words part.now) outside follow.now work.old out.old × (node_at (words part.now) i ≡ true) × (q < 16) }
    ensures { Reports (words part.now) outside follow.now work.old out.old start work.new out.new result
        (row_at (words part.now) i q) }
{
    let top = seed(part, work, outside, i, q, 0);
    run(part, follow, work, outside, top);
    let pairs = row_length(work, outside);
    let empty = pairs == 0;
    if empty {
        return start;
    }
    write_row(part, work, outside, q, out, REPLY_WORDS, start);
    reset(part, work, outside);
    advance(REPLY_WORDS, start, pairs + 1)
}

// The rows of all states at the door at position i.
fn report_states(
    part: &[u8],
    follow: &[u16; 16],
    work: &mut [u8],
    outside: usize,
    i: usize,
    n: u32,
    out: &mut [u8],
    start: usize,
) -> usize
    requires { MayReport (words part.now) outside follow.now work.old out.old × (node_at (words part.now) i ≡ true) × (n ≤ 15) }
    ensures { Reports (words part.now) outside follow.now work.old out.old start work.new out.new result
        (rows_below (words part.now) i (n + 1)) }
{
    let mut count = start;
    for q in 0..=n {
        count = report_row(part, follow, work, outside, i, q, out, count);
    }
    count
}

// The door word of a node word.
fn door_of(w: u32) -> u32
    ensures { result ≡ door_word (node_of w) (root_of w) }
{
    door_word(node(w), root(w))
}

// The door at position i with its rows. Its work adds just its own words to the length. The count that `push` hands back is not used: it is
// promised only where the output is known to hold the words before, and the length is to be right whatever stands there.
fn report_door(
    part: &[u8],
    follow: &[u16; 16],
    work: &mut [u8],
    outside: usize,
    i: usize,
    n: u32,
    out: &mut [u8],
    start: usize,
) -> usize
    requires { MayReport (words part.now) outside follow.now work.old out.old × (is_door (get_or (words part.now) i 0) ≡ true) × (n ≤ 15) }
    ensures { Reports (words part.now) outside follow.now work.old out.old start work.new out.new result
        (door_at (words part.now) n i) × DoorAdds (words part.now) outside follow.now work.old n i start result }
{
    let w = door_of(word_at(part, i));
    push(out, REPLY_WORDS, start, w);
    let count = advance(REPLY_WORDS, start, 1);
    report_states(part, follow, work, outside, i, n, out, count)
}

// The word at position i, where it is a door. Nothing is searched once the reply is over its limit.
fn report_at(
    part: &[u8],
    follow: &[u16; 16],
    work: &mut [u8],
    outside: usize,
    i: usize,
    n: u32,
    out: &mut [u8],
    start: usize,
) -> usize
    requires { MayReport (words part.now) outside follow.now work.old out.old × (n ≤ 15) }
    ensures { Reports (words part.now) outside follow.now work.old out.old start work.new out.new result
        (words_at (words part.now) n i) × RunsPast (words part.now) outside follow.now work.old n i start result }
{
    let over = REPLY_WORDS < start;
    if over {
        return start;
    }
    if is_door(word_at(part, i)) {
        return report_door(part, follow, work, outside, i, n, out, start);
    }
    start
}

// All doors. From 1, the header's word, `length` is before each door the count of the reply's words up to there.
pub fn report_doors(
    part: &[u8],
    follow: &[u16; 16],
    work: &mut [u8],
    outside: usize,
    n: u32,
    out: &mut [u8],
    start: usize,
) -> usize
    requires { MayReport (words part.now) outside follow.now work.old out.old × (n ≤ 15) }
    ensures { Reports (words part.now) outside follow.now work.old out.old start work.new out.new result
        (words_below (words part.now) n (length (words part.now))) }
{
    let size = part.len() / 4;
    let mut length = start;
    for i in 0..size {
        length = report_at(part, follow, work, outside, i, n, out, length);
    }
    length
}
