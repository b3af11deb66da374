// The file that a call left in its output.
ghost use Rattle.std.specs.Prelude.{◌≡◌, ◌≤◌, length, IfOk};
ghost use Rattle.asking.specs.Run.{told, handed};

use hex_lines::lines::print_words;
use path_bundles::split::file_in;
use std::io::Stdout;

// Prints to `to` the file that a call left, and gives how many bytes at the front of the output it has; or the number that refused.
pub fn tell(to: Stdout, number: u32, out: &[u8]) -> Result<usize, u32>
    ensures is { told result out.now ≡ handed number out.now }
    ensures within { IfOk result (λ end. end ≤ length out.now) }
{
    if number != 0 {
        return Err(number);
    }
    let file = file_in(out);
    print_words(to, file);
    Ok(file.len())
}
