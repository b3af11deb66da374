// What refuses a visit as a whole.
ghost use Rattle.files.specs.Refusal.{number};
ghost use Rattle.visits.specs.Answered.{VisitChecked};

use files::limits::REPLY_WORDS;
use files::refusal::Refusal;
use files::refuse::check_room;
use groups::table::check_groups;
use path_bundles::split::check_split;
use readers::part::check_part;

// The checks of the whole in their order: the buffers, of which `out` is the shortest output, the part, the groups, the bundle.
pub fn check(
    part: &[u8],
    groups: &[u8],
    paths: &[u8],
    most: usize,
    out: usize,
    work: usize,
) -> Result<(), Refusal>
    ensures { VisitChecked most out work part.now groups.now paths.now (number result) }
{
    check_room(REPLY_WORDS, out, work)?;
    check_part(part)?;
    check_groups(groups)?;
    check_split(paths, most)
}
