// The generator: a 32-bit state that each draw moves on. Whoever draws is lent it by `&mut`.
ghost use Rattle.std.specs.Prelude.{◌≡◌, ◌*◌, ◌%◌, ◌^◌};
ghost use Rattle.draws.specs.Draws.{moved, upper_bits, after, drawn};

const MULTIPLIER: u32 = 1664525;

const INCREMENT: u32 = 1013904223;

// The wrapping product: of the whole product the lower 32 bits.
fn wrapping_mul(a: u32, b: u32) -> u32
    ensures { result ≡ a * b % 2 ^ 32 }
{
    let whole = (a as u64) * (b as u64);
    (whole % 0x1_0000_0000) as u32
}

// The next state.
fn step(state: u32) -> u32
    ensures { result ≡ moved state }
{
    wrapping_mul(state, MULTIPLIER).wrapping_add(INCREMENT)
}

// What a draw hands out, by the state that it moved on to.
fn upper(state: u32) -> u32
    ensures { result ≡ upper_bits state }
{
    state / 0x1_0000
}

#[derive(Drop)]
pub struct Generator {
    pub state: u32,
}

impl Generator {
    // Moves the state on, and hands out the upper bits of the new one.
    pub fn draw(&mut self) -> u32
        ensures { (self.new.state ≡ moved self.old.state) × (result ≡ drawn self.old.state 0) }
    {
        self.state = step(self.state);
        upper(self.state)
    }
}

// A draw from a generator that is lent.
pub fn draw(g: &mut Generator) -> u32
    ensures { (g.new.state ≡ moved g.old.state) × (result ≡ drawn g.old.state 0) }
{
    g.draw()
}

// What two draws hand out, and the state after them.
#[derive(Drop)]
pub struct Two {
    pub first: u32,
    pub second: u32,
    pub state: u32,
}

// Two draws from a state that is a number.
pub fn draw_two(state: u32) -> Two
    ensures { (result.first ≡ drawn state 0) × (result.second ≡ drawn state 1) × (result.state ≡ after 2 state) }
{
    let mut g = Generator { state };
    let first = draw(&mut g);
    let second = draw(&mut g);
    Two {
        first,
        second,
        state: g.state,
    }
}
