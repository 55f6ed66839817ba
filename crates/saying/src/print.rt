// A line, on standard output. Its bytes are those of crate `trace_text`.
//     Count            how many lines were said, one after the other, and on what
//     Said, Unsaid     a line that was written, with the count; that one could not be
//     say              writes a line
//     write_line       writes the bytes of one
// Only `write_line` makes a `Said` or an `Unsaid`, and calls `one_more`, which alone raises a
// count: no other code can tell that a line was said, or was not, or how many were.
ghost use Rattle.std.specs.Prelude.{◌≤◌, ◌≡◌, length, take};
ghost use Rattle.io.specs.Counts.{IsPrefixLen};
ghost use Rattle.tracing.specs.Answers.{trace_line_said};
ghost use Rattle.trace_text.specs.TraceText.{trace_text_of};
ghost use Rattle.saying.specs.Spoken.{Counted, Spoken, TextStands};

use std::fmt;
use std::fmt::Display;
use std::io::{Error, Stdout};
use tracing::TraceLine;

// So many lines were said, or more than 2^64-1, on an output that takes the next as well.
#[derive(Drop)]
pub struct Count {
    lines: u64,
    out: Stdout,
}

impl Count {
    // Before the first line.
    pub fn none(out: Stdout) -> Count
        ensures { result.lines ≡ 0 }
    {
        Count { lines: 0, out }
    }

    // With one line more.
    fn one_more(self) -> Count
        ensures { Counted self.lines 1 result.lines }
    {
        Count {
            lines: self.lines.saturating_add(1),
            out: self.out,
        }
    }
}

// A line that was written, and how many were with it.
#[derive(Drop)]
pub struct Said {
    line: TraceLine,
    count: Count,
}

impl Said {
    pub fn count(self) -> Count
        ensures { result ≡ self.count }
    {
        self.count
    }
}

// A line could not be written, and why.
#[derive(Drop)]
pub struct Unsaid {
    error: Error,
}

impl Unsaid {
    pub fn error(self) -> Error
        ensures { result ≡ self.error }
    {
        self.error
    }
}

// The message that it could not.
impl Display for Unsaid {
    fn fmt<W: fmt::Write>(&self, f: &mut fmt::Formatter<W>) -> fmt::Result {
        write!(f, "standard output: {}", self.error)
    }
}

// The text of a line, in a buffer that has room for the longest.
#[tactic(auto, using(crate::specs::Spoken::text_put))]
fn text_of(line: TraceLine, out: &mut [u8]) -> usize
    requires { 2816 ≤ length out.old }
    ensures { (take result out.new ≡ trace_text_of (trace_line_said line))
        × IsPrefixLen result out.new }
{
    match line {
        TraceLine::Starts { state, permitted } => trace_text::start_text(state, permitted, out),
        TraceLine::Takes {
            event,
            state,
            permitted,
        } => trace_text::event_text(event, state, permitted, out),
        TraceLine::Refuses { number, place } => trace_text::refusal_text(number, place, out),
    }
}

// Writes the bytes of a line, which are its text and nothing else, after the lines that were said.
fn write_line(line: TraceLine, before: Count, bytes: &[u8]) -> Result<Said, Unsaid>
    requires { bytes.now ≡ trace_text_of (trace_line_said line) }
    ensures { Spoken line before result }
{
    before
        .out
        .write_all(bytes)
        .map_err(|error| Unsaid { error })?;
    let count = before.one_more();
    Ok(Said { line, count })
}

// Writes a line after those that were said, or answers that it could not be written. The buffer is
// for its text, which is there afterwards.
pub fn say(line: TraceLine, before: Count, text: &mut [u8]) -> Result<Said, Unsaid>
    requires { 2816 ≤ length text.old }
    ensures spoken { Spoken line before result }
    ensures text_stands { TextStands (trace_line_said line) text.new }
{
    let n = text_of(line, text);
    write_line(line, before, &text[..n])
}
