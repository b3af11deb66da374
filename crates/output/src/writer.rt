// Words written one after another, counted as they are written. Nothing is written past the limit, and the count stops one past it.
ghost use Rattle.std.specs.Prelude.{[], ◌∷◌, ◌*◌, ◌≤◌, length};
ghost use Rattle.files.specs.Limits.{triple_words};
ghost use Rattle.output.specs.Writer.{Counts, Writes};

use files::word::put_word;

// The count after k more words.
pub fn advance(limit: usize, count: usize, k: usize) -> usize
    requires { limit ≤ triple_words }
    ensures { Counts limit count k result }
{
    if limit < count {
        return count;
    }
    if limit - count < k {
        return limit + 1;
    }
    count + k
}

// One more word.
pub fn push(out: &mut [u8], limit: usize, count: usize, w: u32) -> usize
    requires { (limit ≤ triple_words) × (4 * limit ≤ length out.old) }
    ensures { Writes limit (length out.old) out.old count out.new result (w ∷ []) }
{
    if count < limit {
        put_word(out, count, w);
        return count + 1;
    }
    advance(limit, count, 1)
}
