// Sixteen numbers, one for each state, at a word's position: which states have a number, and the next number for those that have none.
ghost use Rattle.std.specs.Prelude.{◌≡◌, false, cond, not, ◌&&◌, ℕ, ◌+◌, ◌*◌, ◌≤◌, ◌<◌, eqb, ltb, length, get_or};
ghost use Rattle.sets.specs.Sets.{any};
ghost use Rattle.sets.specs.States.{has_state, states_of};
ghost use Rattle.sets.specs.Table.{half, put_half};
ghost use Rattle.files.specs.Limits.{shown_words, work_bytes};
ghost use Rattle.walk_rows.specs.Distances.{numbered, Hit};

use sets::states::{has, with};
use sets::table::{get16, put16};

// The states that pass a test, which is put to each once.
#[tactic(auto, using(sets::proofs::StateSets::has_empty))]
fn gather<F: Fn(u32) -> bool>(test: F) -> u16
    requires { (q : ℕ) → q < 16 → F.pre test q }
    ensures tested { (q : ℕ) → q < 16 → F.post test q (has_state result q) }
    ensures others { (q : ℕ) → 16 ≤ q → has_state result q ≡ false }
{
    let mut r: u16 = 0;
    for q in 0..16 {
        if test(q) {
            r = with(r, q);
        }
    }
    r
}

// The states of a row that have the number v.
pub fn having(work: &[u8], i: usize, v: u16) -> u16
    requires { (i < shown_words) × (work_bytes ≤ length work.now) }
    ensures { (p : ℕ) → has_state result p ≡ (ltb p 16 && eqb (half work.now 0 (16 * i + p)) v) }
{
    gather(|q| get16(work, 0, 16 * i + q as usize) == v)
}

// The states that may be followed by one of f.
pub fn preceding(follow: [u16; 16], f: u16) -> u16
    ensures { (p : ℕ) → has_state result p ≡ (ltb p 16 && any (has_state f) (states_of (get_or follow p 0))) }
{
    gather(|q| follow[q as usize] & f != 0)
}

// Writes v at a place that is hit.
fn hit(work: &mut [u8], at: usize, hits: bool, v: u16)
    requires { (at < 16 * shown_words) × (work_bytes ≤ length work.old) }
    ensures { work.new ≡ cond hits (put_half work.old 0 at v) work.old }
{
    if hits {
        put16(work, 0, at, v);
    }
}

// Writes v for the states of the set that have no number. Tells whether the row has a v since then.
pub fn spread(work: &mut [u8], i: usize, set: u16, v: u16) -> bool
    requires { (i < shown_words) × (work_bytes ≤ length work.old) × (0 < v) }
    ensures hit { Hit (has_state set) i 16 v work.old work.new }
    ensures tells { result ≡ (numbered work.new i v && not (numbered work.old i v)) }
{
    let mut old = false;
    let mut new = false;
    for q in 0..16 {
        let at = 16 * i + q as usize;
        let n = get16(work, 0, at);
        let hits = has(set, q) & (n == 0);
        hit(work, at, hits, v);
        old = old | (n == v);
        new = new | hits;
    }
    new & !old
}
