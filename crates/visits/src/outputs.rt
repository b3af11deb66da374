// The four outputs of a visit: the shortest of them, and their numbers in one.
ghost use Rattle.std.specs.Prelude.{◌≡◌, [], ◌∷◌, ◌<◌};
ghost use Rattle.path_bundles.specs.Packed.{packed};
ghost use Rattle.visits.specs.Whole.{shortest as shortestOf};

pub fn shortest(a: usize, b: usize, c: usize, d: usize) -> usize
    ensures { result ≡ shortestOf (a ∷ b ∷ c ∷ d ∷ []) }
{
    a.min(b.min(c.min(d)))
}

// A byte each, the first the lowest.
pub fn pack(a: u32, b: u32, c: u32, d: u32) -> u32
    requires { (a < 256) × (b < 256) × (c < 256) × (d < 256) }
    ensures { result ≡ packed (a ∷ b ∷ c ∷ d ∷ []) }
{
    a + 256 * b + 65536 * c + 16777216 * d
}
