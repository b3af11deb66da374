// The end of every call: what a refusal and an acceptance leave in the caller's buffers.
ghost use Rattle.std.specs.Prelude.{◌≡◌};
ghost use Rattle.files.specs.Outcome.{left};
ghost use Rattle.output.specs.Frame.{withheld, settled};

use files::buffer::clear;
use files::numbered::Numbered;

// After a refusal zeroes an output.
pub fn withhold<N: Numbered>(outcome: N, out: &mut [u8])
    ensures { out.new ≡ withheld (N.number outcome) out.old }
{
    let refused = outcome.number() != 0;
    if refused {
        clear(out);
    }
}

// Zeroes the working buffer, and after a refusal the output; gives the number.
pub fn settle<N: Numbered>(outcome: N, out: &mut [u8], work: &mut [u8]) -> u32
    ensures { left result out.new work.new ≡ settled (N.number outcome) out.old work.old }
{
    clear(work);
    withhold(outcome, out);
    outcome.number()
}
