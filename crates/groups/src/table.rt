// The label groups that travel with a path: eight range words, checked, and read once into a value.
ghost use Rattle.std.specs.Prelude.{◌≡◌};
ghost use Rattle.files.specs.Word.{words, bytes_of};
ghost use Rattle.files.specs.Refusal.{number};
ghost use Rattle.files.specs.Groups.{groups_check, our_groups};

use files::expr::is_range;
use files::limits::GROUP_COUNT;
use files::refusal::{Refusal, ensure};
use files::word::{Words, put_word, word_at};

const BYTES: usize = 4 * GROUP_COUNT;

// 16: not just eight words, or one of them is no range.
pub fn check_groups(groups: &[u8]) -> Result<(), Refusal>
    ensures { number result ≡ groups_check groups.now }
{
    ensure(groups.len() == BYTES, Refusal::WrongGroups)?;
    for w in Words::of(groups) {
        ensure(is_range(w), Refusal::WrongGroups)?;
    }
    Ok(())
}

// The words of accepted groups.
pub fn read_groups(groups: &[u8]) -> [u32; GROUP_COUNT]
    requires { groups_check groups.now ≡ 0 }
    ensures { result ≡ words groups.now }
{
    [
        word_at(groups, 0),
        word_at(groups, 1),
        word_at(groups, 2),
        word_at(groups, 3),
        word_at(groups, 4),
        word_at(groups, 5),
        word_at(groups, 6),
        word_at(groups, 7),
    ]
}

// Our own, for the calls without groups, as a host would hand them in.
pub fn our_groups() -> [u8; BYTES]
    ensures { result ≡ bytes_of our_groups }
{
    let mut groups = [0; BYTES];
    put_word(&mut groups, 0, 0x50ff_f000);
    put_word(&mut groups, 1, 0x503f_f000);
    put_word(&mut groups, 2, 0x500f_f000);
    put_word(&mut groups, 3, 0x505f_f400);
    put_word(&mut groups, 4, 0x506f_f600);
    put_word(&mut groups, 5, 0x507f_f700);
    put_word(&mut groups, 6, 0x50bf_f800);
    put_word(&mut groups, 7, 0x50ff_ffc0);
    groups
}
