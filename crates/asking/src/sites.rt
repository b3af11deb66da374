// The sites that a cut list names, as sixteen bits.
ghost use Rattle.std.specs.Prelude.{◌≡◌, ℕ, ◌<◌, ◌||◌, eqb};
ghost use Rattle.sets.specs.Sets.{member};
ghost use Rattle.sets.specs.States.{has_state};

use sets::states::with;

// Adds a site, if the byte is one.
fn with_byte(sites: u16, byte: u8) -> u16
    ensures { (s : ℕ) → s < 16 → has_state result s ≡ (has_state sites s || eqb s byte) }
{
    if byte < 16 {
        with(sites, byte as u32)
    } else {
        sites
    }
}

// The sites that a cut list names.
pub fn sites_of(cuts: &[u8]) -> u16
    ensures { (s : ℕ) → s < 16 → has_state result s ≡ member s cuts.now }
{
    let mut sites: u16 = 0;
    for byte in cuts {
        sites = with_byte(sites, *byte);
    }
    sites
}
