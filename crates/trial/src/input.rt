// The files that the arguments name.
ghost use Rattle.std.specs.Prelude.{IfOk, IfSome};
ghost use Rattle.io.specs.Counts.{IsPrefixLen};

use std::fs::{self, File};
use std::io::{self, Read};

// Reads to the file's end, or until the buffer is full.
fn fill(file: &mut File, buf: &mut [u8]) -> io::Result<usize>
    ensures { IfOk result (λ n. IsPrefixLen n buf.new) }
{
    let mut at = 0;
    while at < buf.len() {
        let n = file.read(&mut buf[at..])?;
        if n == 0 {
            return Ok(at);
        }
        at += n;
    }
    Ok(at)
}

fn read_file(rt: &HostRuntime, name: &str, buf: &mut [u8]) -> io::Result<usize>
    ensures { IfOk result (λ n. IsPrefixLen n buf.new) }
{
    let mut file = fs::open(rt, name)?;
    fill(&mut file, buf)
}

// Says on standard error why a file is not read, in the system's words and without their number.
fn complain(rt: &HostRuntime, name: &str, error: io::Error) -> io::Result<()> {
    let text = format!(in rt.alloc(); "{error}")?;
    match text.split_once(" (os error ") {
        Some((words, _)) => eprintln!(rt; "{name}: {words}"),
        None => eprintln!(rt; "{name}: {text}"),
    }
}

// Reads the file of that name, and gives how many bytes it put at the front of the buffer. Where it cannot, standard error says why.
pub fn load(rt: &HostRuntime, name: &str, buf: &mut [u8]) -> Option<usize>
    ensures { IfSome result (λ n. IsPrefixLen n buf.new) }
{
    match read_file(rt, name, buf) {
        Ok(bytes) => Some(bytes),
        Err(error) => {
            let _ = complain(rt, name, error);
            None
        }
    }
}
