// A file of cases, line by line.
//     Trial    what a test program tries of it
//     run      all of it, and what is printed
use crate::fault::Fault;
use crate::tally::{Outcome, Tally};
use std::fs::File;
use std::io;
use std::io::{BufRead, BufReader, ErrorKind, Read};

// The longest line, in bytes and without its line feed; one that is longer is malformed.
const LONGEST: usize = 65535;

pub trait Trial {
    // A line that is no comment, tried.
    fn take_line(&mut self, line: &str) -> Result<Outcome, Fault>;
}

// A line of bytes, which has no case where it is no text.
fn outcome<T: Trial>(trial: &mut T, line: &[u8]) -> Result<Outcome, Fault> {
    let text = str::from_utf8(line).map_err(|_| Fault::Malformed)?;
    trial.take_line(text)
}

fn take_line<R: Print, T: Trial>(
    rt: &R,
    tally: &mut Tally,
    trial: &mut T,
    line: &[u8],
) -> io::Result<()> {
    if LONGEST < line.len() {
        tally.refuse();
        return Ok(());
    }
    if line.starts_with(b"#") {
        return tally.take_comment(rt, line);
    }
    tally
        .take(outcome(trial, line))
        .map_err(|_| io::Error::from(ErrorKind::OutOfMemory))
}

// The lines up to the file's end, or to one that is malformed; whether every read was good. Of a line no more is read
// than the longest and its line feed need.
fn take_lines<T: Trial, B: BufRead>(
    rt: &HostRuntime,
    path: &str,
    tally: &mut Tally,
    trial: &mut T,
    reader: &mut B,
) -> io::Result<bool> {
    let mut line = Vec::new(rt.alloc());
    for _ in 0..u64::MAX {
        line.clear();
        let mut bounded = reader.by_ref().take(LONGEST as u64 + 1);
        match bounded.read_until(b'\n', &mut line) {
            Ok(0) => break,
            Ok(_) => take_line(rt, tally, trial, line.strip_suffix(b"\n").unwrap_or(&line))?,
            Err(error) => {
                let _ = eprintln!(rt; "{path}: {error}");
                return Ok(false);
            }
        }
        if tally.is_malformed() {
            break;
        }
    }
    Ok(true)
}

pub fn run<T: Trial>(rt: &HostRuntime, path: &str, trial: &mut T) -> io::Result<()> {
    let file = match File::open(rt, path) {
        Ok(file) => file,
        Err(error) => return eprintln!(rt; "{path}: {error}"),
    };
    let mut reader = BufReader::new(rt.alloc(), file)?;
    let mut tally = Tally::new();
    let read = take_lines(rt, path, &mut tally, trial, &mut reader)?;
    tally.finish(rt, read)
}
