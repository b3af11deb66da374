// The checks of a call that is asked about a whole, with a path.
ghost use Rattle.std.specs.Prelude.{◌≡◌, [], ◌∷◌, ◌≤◌, length};
ghost use Rattle.sets.specs.NodeSet.{node_set_bytes};
ghost use Rattle.files.specs.Word.{words};
ghost use Rattle.files.specs.Refusal.{number};
ghost use Rattle.files.specs.Refuse.{◌then◌, size_check};
ghost use Rattle.files.specs.Part.{whole_check};
ghost use Rattle.files.specs.Path.{path_check};
ghost use Rattle.files.specs.Groups.{groups_check};
ghost use Rattle.files.specs.Limits.{part_words, path_words};
ghost use Rattle.output.specs.Frame.{input, also, Checked};

use files::refusal::Refusal;
use files::refuse::{check_room, check_size};
use groups::table::check_groups;
use queries::path::check_path;
use wholes::whole::check_whole;

// A whole of at most `most` words.
fn check_few(whole: &[u8], most: usize, work: &mut [u8]) -> Result<(), Refusal>
    requires { (most ≤ part_words) × (node_set_bytes ≤ length work.old) }
    ensures { number result ≡ (size_check most whole.now then whole_check (words whole.now)) }
{
    check_size(whole, most)?;
    check_whole(whole, work)
}

// The checks in their order: the buffers, the whole, the groups, the path.
pub fn check(
    limit: usize,
    most: usize,
    whole: &[u8],
    groups: &[u8],
    path: &[u8],
    out: usize,
    work: &mut [u8],
) -> Result<(), Refusal>
    requires { most ≤ part_words }
    ensures { Checked limit out (length work.old)
        (input most whole.now (whole_check (words whole.now)) ∷ also (groups_check groups.now) ∷ input path_words path.now (path_check (words path.now)) ∷ []) (number result) }
{
    check_room(limit, out, work.len())?;
    check_few(whole, most, work)?;
    check_groups(groups)?;
    check_path(path)
}
