// A cut list: one site byte for each node word of a whole, in order.
ghost use Rattle.std.specs.Prelude.{◌≡◌, drop};
ghost use Rattle.std.specs.List.{list_any};
ghost use Rattle.files.specs.Word.{words};
ghost use Rattle.files.specs.Refusal.{number};
ghost use Rattle.files.specs.Cuts.{no_site, cut_check};

use files::refusal::{Refusal, ensure};
use kinds::count::{Mark, count_kind};

fn no_site(c: u8) -> bool
    ensures { result ≡ no_site c }
{
    15 < c
}

// Whether some byte is no site.
fn has_no_site(cuts: &[u8]) -> bool
    ensures { result ≡ list_any no_site cuts.now }
{
    cuts.iter().any(|c| no_site(*c))
}

// 11: the cut list for the words of a whole, then the asked site.
pub fn check_cuts(whole: &[u8], cuts: &[u8], site: u32) -> Result<(), Refusal>
    ensures { number result ≡ cut_check (drop 1 (words whole.now)) cuts.now site }
{
    let listed = cuts.len() == count_kind(whole, 1, 2, Mark::Any);
    let known = !has_no_site(cuts);
    ensure(listed & known, Refusal::WrongCounts)?;
    ensure(site <= 15, Refusal::WrongCounts)
}
