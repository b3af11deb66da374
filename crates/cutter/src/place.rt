// The words of a whole one by one, and whose they are.
ghost use Rattle.std.specs.Prelude.{◌≡◌, ◌<◌};
ghost use Rattle.cutter.specs.Cut.{passed};

use files::part::is_node;

// The index of the next cut byte, and whether the words before it end in those of a node of the asked site, or of another.
#[derive(Clone, Copy)]
pub struct Place {
    pub cut: usize,
    pub mine: bool,
    pub other: bool,
}

// One more word: at a node word the next cut byte says whose the words are.
pub fn pass(cuts: &[u8], site: u32, p: Place, w: u32) -> Place
    ensures { result ≡ passed cuts.now site p w }
{
    let at = p.cut;
    if cuts.len() <= at {
        return p;
    }
    if is_node(w) {
        let own = u32::from(cuts[at]) == site;
        return Place {
            cut: at + 1,
            mine: own,
            other: !own,
        };
    }
    p
}
