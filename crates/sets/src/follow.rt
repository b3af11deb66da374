// What may follow a set of states.
ghost use Rattle.sets.specs.Follow.{Follows};

use super::states::StateSet;

// The states that may follow some state of `set`: `follow[q]` holds those that may follow q.
pub fn follow_all(follow: [u16; 16], set: u16) -> u16
    ensures { Follows follow set result }
{
    let mut r: u16 = 0;
    for q in StateSet(set) {
        r = r | follow[q as usize];
    }
    r
}
