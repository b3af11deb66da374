// A refusal by its name: what refuses a visit as a whole goes on to its paths, and each of these hands that on, or its own.
ghost use Rattle.std.specs.Prelude.{◌≡◌, length};
ghost use Rattle.std.specs.Result.{result_unwrap_or};
ghost use Rattle.files.specs.Refusal.{number};
ghost use Rattle.visits.specs.Whole.{whole_grouped_number};
ghost use Rattle.visits.specs.Answered.{PathAsked, PathLeft};

use files::refusal::Refusal;
use visits::path::{ask, reply};
use visits::whole::check;

// The path that a bundle of one is.
pub fn ask_checked(
    part: &[u8],
    groups: &[u8],
    path: &[u8],
    out: &mut [u8],
    work: &mut [u8],
) -> Result<usize, Refusal>
    ensures { PathAsked (whole_grouped_number 1 (length out.old) (length work.old) part.now groups.now path.now) part.now groups.now path.now
        (length out.old) out.old 0 out.new (number result) (result_unwrap_or result 0) }
{
    let whole = check(part, groups, path, 1, out.len(), work.len());
    ask(whole, part, groups, path, 0, out, work)
}

// The path of an index, of up to four.
pub fn reply_checked(
    part: &[u8],
    groups: &[u8],
    paths: &[u8],
    index: usize,
    out: &mut [u8],
    work: &mut [u8],
) -> Result<(), Refusal>
    ensures { PathLeft (whole_grouped_number 4 (length out.old) (length work.old) part.now groups.now paths.now) part.now groups.now paths.now
        index (length out.old) (number result) out.new }
{
    let whole = check(part, groups, paths, 4, out.len(), work.len());
    reply(whole, part, groups, paths, index, out, work)
}

#[cfg(test)]
mod tests {
    use super::*;
    use files::word::{put_word, word_at};
    use groups::table::our_groups;

    // Document 01's part of site 0.
    fn part() -> [u8; 20] {
        let mut part = [0; 20];
        put_word(&mut part, 0, 0x1000_0005);
        put_word(&mut part, 1, 0x2003_0001);
        put_word(&mut part, 2, 0x3005_0002);
        put_word(&mut part, 3, 0x2001_0003);
        put_word(&mut part, 4, 0x3005_0002);
        part
    }

    // The path of the empty word.
    fn path() -> [u8; 8] {
        let mut path = [0; 8];
        put_word(&mut path, 0, 0x4000_0002);
        put_word(&mut path, 1, 0x6000_0000);
        path
    }

    // Behind it one whose word is none.
    fn paths() -> [u8; 16] {
        let mut paths = [0; 16];
        put_word(&mut paths, 0, 0x4000_0002);
        put_word(&mut paths, 1, 0x6000_0000);
        put_word(&mut paths, 2, 0x4000_0002);
        put_word(&mut paths, 3, 0x7000_0000);
        paths
    }

    // A test fails where something else is seen.
    fn is(seen: bool) -> Result<(), &'static str> {
        if seen {
            Ok(())
        } else {
            Err("something else was seen")
        }
    }

    #[test]
    fn one_path() -> Result<(), &'static str> {
        let part = part();
        let groups = our_groups();
        let path = path();
        let mut out = [0; 16384];
        let mut work = [0; 32768];
        is(ask_checked(&part, &groups, &path, &mut out, &mut work) == Ok(3))?;
        is(word_at(&out, 0) == 0x7000_0003)?;
        is(ask_checked(&path, &groups, &path, &mut out, &mut work) == Err(Refusal::WrongHeader))?;
        is(ask_checked(&part, &path, &path, &mut out, &mut work) == Err(Refusal::WrongGroups))?;
        is(ask_checked(&part, &groups, &paths(), &mut out, &mut work) == Err(Refusal::WrongFiles))?;
        is(ask_checked(&part, &groups, &path, &mut out, &mut [0; 4]) == Err(Refusal::NoRoom))
    }

    #[test]
    fn path_of_an_index() -> Result<(), &'static str> {
        let part = part();
        let groups = our_groups();
        let paths = paths();
        let mut out = [1; 16384];
        let mut work = [0; 32768];
        is(reply_checked(&part, &groups, &paths, 0, &mut out, &mut work) == Ok(()))?;
        is(word_at(&out, 0) == 0x7000_0003)?;
        is(
            reply_checked(&part, &groups, &paths, 1, &mut out, &mut work)
                == Err(Refusal::WrongWord),
        )?;
        is(word_at(&out, 0) == 0)?;
        is(reply_checked(&part, &groups, &paths, 2, &mut out, &mut work) == Ok(()))?;
        is(word_at(&out, 0) == 0)?;
        is(
            reply_checked(&part, &groups, &part, 0, &mut out, &mut work)
                == Err(Refusal::WrongHeader),
        )?;
        is(
            reply_checked(&part, &groups, &groups, 0, &mut out, &mut work)
                == Err(Refusal::WrongFiles),
        )
    }
}
