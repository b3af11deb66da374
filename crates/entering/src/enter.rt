// Slots entered in states, in the tables of slots/specs/Slots.antt: a node that gains a state waits, and stands on a stack, once. So each pair
// of a node and a state is expanded once.
ghost use Rattle.std.specs.Prelude.{◌≡◌, true, ◌+◌, ◌<◌, length};
ghost use Rattle.files.specs.Word.{words};
ghost use Rattle.slots.specs.Slots.{node_at, Roomy, Laid};
ghost use Rattle.entering.specs.Entering.{Waits, Entered, Walked, Hit, Waiting};

use sets::table::{get16, put16};
use slots::position::{is_edge, is_node};
use slots::tables::{PENDING, PLACE, REACHED, SLOT};

// Lets the node at s wait in the states of m too, and puts it on the stack where it did not wait. Gives the stack's height.
fn wait(part: &[u8], work: &mut [u8], outside: usize, s: usize, m: u16, top: usize) -> usize
    requires roomy { Roomy (words part.now) outside work.old × (s < length (words part.now)) × (node_at (words part.now) s ≡ true) × (0 < m) }
    requires waiting { Waiting (words part.now) outside work.old top }
    ensures waits { Waits (words part.now) outside work.old work.new s m }
    ensures stacked { Waiting (words part.now) outside work.new result }
{
    let pending = get16(work, PENDING, s);
    put16(work, PENDING, s, pending | m);
    if pending != 0 {
        return top;
    }
    put16(work, PLACE, outside + top, s as u16);
    top + 1
}

// Enters slot s in the states of m. Gives the stack's height.
pub fn enter(part: &[u8], work: &mut [u8], outside: usize, s: usize, m: u16, top: usize) -> usize
    requires { Roomy (words part.now) outside work.old × (s < length (words part.now)) × Waiting (words part.now) outside work.old top }
    ensures entered { Entered (words part.now) outside work.old work.new s m }
    ensures stacked { Waiting (words part.now) outside work.new result }
{
    let old = get16(work, REACHED, s);
    let new = m & !old;
    let known = new == 0;
    if known {
        return top;
    }
    put16(work, REACHED, s, old | new);
    if is_node(part, s) {
        return wait(part, work, outside, s, new, top);
    }
    top
}

// Follows the edge words of the node at i into the states of u. Gives the stack's height.
pub fn walk(part: &[u8], work: &mut [u8], outside: usize, i: usize, u: u16, height: usize) -> usize
    requires laid { Laid (words part.now) outside work.old × (i < length (words part.now)) × (node_at (words part.now) i ≡ true) }
    requires waiting { Waiting (words part.now) outside work.old height }
    ensures walked { Walked (words part.now) outside (Hit (words part.now) work.old i u (length (words part.now))) work.old work.new }
    ensures stacked { Waiting (words part.now) outside work.new result }
{
    let mut x = i + 1;
    let mut top = height;
    while is_edge(part, x) {
        let s = get16(work, SLOT, x) as usize;
        let m = get16(work, PENDING, x);
        top = enter(part, work, outside, s, m & u, top);
        x += 1;
    }
    top
}
