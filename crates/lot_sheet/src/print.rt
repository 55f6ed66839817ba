// The sheet on standard output, or a message on standard error.
ghost use Rattle.lot_sheet.specs.Reply.{Fits};

use crate::office::NoSheet;
use std::io;
use std::io::{Stderr, Stdout};

fn say_sheet(out: Stdout, messages: Stderr, sheet: &[u8]) -> io::Result<()> {
    match out.write_all(sheet) {
        Ok(()) => Ok(()),
        Err(error) => eprintln!(messages; "standard output: {error}"),
    }
}

pub fn say(
    out: Stdout,
    messages: Stderr,
    told: Result<usize, NoSheet>,
    text: &[u8],
) -> io::Result<()>
    requires { Fits told text.now }
{
    match told {
        Ok(n) => say_sheet(out, messages, &text[..n]),
        Err(why) => eprintln!(messages; "lot_sheet: {why}"),
    }
}
