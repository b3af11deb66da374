// The called pairs: the calls by position beside the nodes of the part by position. Both ascend.
ghost use Rattle.std.specs.Prelude.{◌≡◌, not, ◌+◌, ◌^◌, ◌<◌, drop, get_or};
ghost use Rattle.sets.specs.Sets.{any, member};
ghost use Rattle.files.specs.Word.{words};
ghost use Rattle.files.specs.Field.{pair_node, pair_state};
ghost use Rattle.files.specs.Refusal.{number};
ghost use Rattle.files.specs.Refuse.{◌unless◌};
ghost use Rattle.files.specs.Part.{doors, part_check};
ghost use Rattle.files.specs.Calls.{calls_check};
ghost use Rattle.part_search.specs.Search.{Begun, Blank};
ghost use Rattle.site_calls.specs.Against.{called_in, against_check};
ghost use Rattle.site_calls.specs.Called.{call_at, holds_at, shut_at, Advanced, SeededAt, SeededAll};

use files::field::{door, labels, state};
use files::refusal::{Refusal, ensure};
use files::word::word_at;
use part_search::search::seed;
use slots::position::{is_node, number_at};

// The node and the state of the call at position k.
fn call_node(calls: &[u8], k: usize) -> u32
    ensures { (result ≡ pair_node (call_at (words calls.now) k)) × (get_or (words calls.now) k 0 < 2 ^ 32) }
{
    word_at(calls, k) / 16 % 0x1_0000
}

fn call_state(calls: &[u8], k: usize) -> u32
    ensures { result ≡ pair_state (call_at (words calls.now) k) }
{
    state(word_at(calls, k))
}

// Whether the node word of x stands at position i.
fn holds(part: &[u8], i: usize, x: u32) -> bool
    ensures { result ≡ holds_at (words part.now) i x }
{
    is_node(part, i) & (number_at(part, i) == x)
}

// Whether the node word of x stands at position i, and x is no door.
fn shut(part: &[u8], i: usize, x: u32) -> bool
    ensures { result ≡ shut_at (words part.now) i x }
{
    holds(part, i, x) & !door(word_at(part, i))
}

// The first position from `from` on of a node that is not below x, or the end.
fn advance(part: &[u8], from: usize, x: u32) -> usize
    ensures { Advanced (words part.now) from x result }
{
    let n = part.len() / 4;
    for i in from..n {
        if is_node(part, i) & (x <= number_at(part, i)) {
            return i;
        }
    }
    n
}

// 14: a called node of the part is no door. Calls and nodes ascend, so the position in the part only moves forward.
fn check_doors(part: &[u8], calls: &[u8]) -> Result<(), Refusal>
    requires { (part_check (words part.now) ≡ 0) × (calls_check (words calls.now) ≡ 0) }
    ensures { number result ≡ (14 unless not (any (λ c. not (member (pair_node c) (doors (drop 1 (words part.now)))))
        (called_in (drop 1 (words part.now)) (drop 1 (words calls.now))))) }
{
    let n = calls.len() / 4;
    let mut at = 0;
    for k in 1..n {
        let x = call_node(calls, k);
        at = advance(part, at, x);
        if shut(part, at, x) {
            return Err(Refusal::Stray);
        }
    }
    Ok(())
}

// 12 and 14, of the call list against path and part: another n, and a call of a node that is no door.
pub fn check_against(part: &[u8], path: &[u8], calls: &[u8]) -> Result<(), Refusal>
    requires { (part_check (words part.now) ≡ 0) × (calls_check (words calls.now) ≡ 0) }
    ensures { number result ≡ against_check (words part.now) (words path.now) (words calls.now) }
{
    let same = labels(word_at(calls, 0)) == labels(word_at(path, 0));
    ensure(same, Refusal::MixedReplies)?;
    check_doors(part, calls)
}

// Marks the call at position k, if its node stands at position i. Gives the stack's height.
fn seed_call(
    part: &[u8],
    calls: &[u8],
    work: &mut [u8],
    outside: usize,
    i: usize,
    k: usize,
    top: usize,
) -> usize
    requires { Begun (words part.now) outside work.old top }
    ensures { SeededAt (words part.now) outside work.old work.new i (call_at (words calls.now) k) result }
{
    let x = call_node(calls, k);
    let q = call_state(calls, k);
    if holds(part, i, x) {
        return seed(part, work, outside, i, q, top);
    }
    top
}

// Marks the called pairs of the part. Gives the stack's height.
pub fn seed_called(part: &[u8], calls: &[u8], work: &mut [u8], outside: usize) -> usize
    requires { (calls_check (words calls.now) ≡ 0) × Begun (words part.now) outside work.old 0 × Blank (words part.now) work.old }
    ensures { SeededAll (words part.now) (words calls.now) outside work.old work.new result }
{
    let n = calls.len() / 4;
    let mut at = 0;
    let mut top = 0;
    for k in 1..n {
        let x = call_node(calls, k);
        at = advance(part, at, x);
        top = seed_call(part, calls, work, outside, at, k, top);
    }
    top
}
