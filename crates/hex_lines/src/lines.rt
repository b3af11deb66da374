// Words as text: a line of eight lowercase hexadecimal digits.
ghost use Rattle.std.specs.Prelude.{◌≡◌, ◌%◌};
ghost use Rattle.io.specs.Digits.{hex_digit_ascii};
ghost use Rattle.hex_lines.specs.Hex.{hex_line};

use files::word::Words;
use std::io::{Print, Stdout};

// The lowest digit.
fn digit(w: u32) -> u8
    ensures { result ≡ hex_digit_ascii (w % 16) }
{
    let d = (w % 16) as u8;
    if d < 10 { b'0' + d } else { b'a' + (d - 10) }
}

// A word's line.
fn hex_line(w: u32) -> [u8; 9]
    ensures { result ≡ hex_line w }
{
    [
        digit(w / 0x1000_0000),
        digit(w / 0x0100_0000),
        digit(w / 0x0010_0000),
        digit(w / 0x0001_0000),
        digit(w / 0x0000_1000),
        digit(w / 0x0000_0100),
        digit(w / 0x0000_0010),
        digit(w),
        b'\n',
    ]
}

// Writes a word's line to standard output, or as much of it as goes.
fn print_line(out: Stdout, w: u32) {
    let _ = out.write_all(&hex_line(w));
}

// Writes a file's words to standard output.
pub fn print_words(out: Stdout, file: &[u8]) {
    for w in Words::of(file) {
        print_line(out, w);
    }
}
