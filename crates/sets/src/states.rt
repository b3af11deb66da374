// A set of states: sixteen bits, bit q set where state q belongs.
ghost use Rattle.std.specs.Prelude.{◌≡◌, ◌&&◌, ◌||◌, not, ℕ, ◌<◌, eqb, length};
ghost use Rattle.std.specs.Iterator.{item_count};
ghost use Rattle.sets.specs.States.{has_state, members, states_of, Lowest, Rest, TakesLowest};

pub fn has(s: u16, q: u32) -> bool
    requires { q < 16 }
    ensures { result ≡ has_state s q }
{
    (s >> q) % 2 == 1
}

pub fn with(s: u16, q: u32) -> u16
    requires { q < 16 }
    ensures { (p : ℕ) → has_state result p ≡ (has_state s p || eqb p q) }
{
    s | (1 << q)
}

pub fn minus(a: u16, b: u16) -> u16
    ensures { (p : ℕ) → has_state result p ≡ (has_state a p && not (has_state b p)) }
{
    a & !b
}

// How many states s has.
pub fn size(s: u16) -> u32
    ensures { result ≡ length (states_of s) }
{
    u16::count_ones(s)
}

// How many states of s are below q.
pub fn below(s: u16, q: u32) -> u32
    requires { q < 16 }
    ensures { result ≡ length (members (has_state s) 0 q) }
{
    u16::count_ones(s % (1 << q))
}

pub fn lowest(s: u16) -> u32
    requires { 0 < s }
    ensures { Lowest s result }
{
    u16::trailing_zeros(s)
}

// The set without its lowest state.
pub fn without_lowest(s: u16) -> u16
    requires { 0 < s }
    ensures { Rest s result }
{
    s & (s - 1)
}

// The states of a set, ascending.
#[derive(Clone, Copy)]
pub struct StateSet(pub u16);

impl Iterator for StateSet {
    type Item = u32;

    ghost next_gives = { TakesLowest };

    ghost remaining = { item_count (λ s. states_of s.0) };

    fn next(&mut self) -> Option<u32> {
        let s = self.0;
        if s == 0 {
            return None;
        }
        self.0 = without_lowest(s);
        Some(lowest(s))
    }
}
