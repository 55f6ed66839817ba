// The line, on standard output. Its bytes are those of crate `format`.
use format::Line;
use std::io::{Result, Stderr, Stdout};

pub fn say(out: Stdout, messages: Stderr, line: Line) -> Result<()> {
    let text = format::text_of(line);
    match out.write_all(text.as_bytes()) {
        Ok(()) => Ok(()),
        Err(error) => eprintln!(messages; "standard output: {error}"),
    }
}
