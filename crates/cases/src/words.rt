// The sections of a line, and their numbers, in decimal, one space before each.
//     section      what stands before ` :`, and after it
//     answered     what stands before `=` and after it
//     numbers      as many as are asked for
//     read_list    a list of them, put into a buffer
//     length       a number as a length
ghost use Rattle.std.specs.Prelude.{◌≡◌, ◌<◌, ◌≤◌, IfErr, IfOk, vec_len};

use crate::fault::Fault;
use std::alloc::AllocError;
use std::iter::Iterator;
use std::str::{FromStr, Split};

// A number has digits alone; `parse` takes a sign too.
fn number<T: FromStr>(word: &str) -> Result<T, Fault>
where
    T::Err: Drop,
{
    if !word.starts_with(|c: char| c.is_ascii_digit()) {
        return Err(Fault::Malformed);
    }
    word.parse().map_err(|_| Fault::Malformed)
}

// What stands before the first space is empty.
fn words(text: &str) -> Result<Split<'_, char>, Fault> {
    let mut words = text.split(' ');
    match words.next() {
        Some("") => Ok(words),
        _ => Err(Fault::Malformed),
    }
}

// The first section, and the others, before which ` :` stands.
pub fn section(text: &str) -> Result<(&str, &str), Fault> {
    text.split_once(" :").ok_or(Fault::Malformed)
}

// A space may stand before the `=`.
pub fn answered(line: &str) -> Option<(&str, &str)> {
    let (call, answer) = line.split_once('=')?;
    Some((call.strip_suffix(' ').unwrap_or(call), answer))
}

pub fn numbers<const N: usize>(text: &str) -> Result<[u64; N], Fault> {
    let mut words = words(text)?;
    let mut numbers = [0; N];
    for n in numbers.iter_mut() {
        *n = number(words.next().ok_or(Fault::Malformed)?)?;
    }
    match words.next() {
        None => Ok(numbers),
        Some(_) => Err(Fault::Malformed),
    }
}

// A list of at most so many.
pub fn read_list<T: FromStr + Drop>(text: &str, most: usize, list: &mut Vec<T>) -> Result<(), Fault>
where
    T::Err: Drop,
    ensures { vec_len list.new ≤ most }
{
    list.clear();
    for word in words(text)? {
        if list.len() == most {
            return Err(Fault::Malformed);
        }
        list.push(number(word)?).map_err(AllocError::from)?;
    }
    Ok(())
}

// A length of at most so many.
pub fn length(number: u64, most: usize) -> Result<usize, Fault>
    ensures taken { IfOk result (λ n. (n ≡ number) × (n ≤ most)) }
    ensures refused { IfErr result (λ _. most < number) }
{
    if number <= most as u64 {
        Ok(number as usize)
    } else {
        Err(Fault::Malformed)
    }
}
