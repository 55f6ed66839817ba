// Reading a whole table from a number list: refusals 3, 5 and 6.
ghost use Rattle.std.specs.Prelude.{◌≡◌, length, ◌≤◌};
ghost use Rattle.table_index.specs.Parse.{ParseDone};
ghost use Rattle.table_index.specs.Parse.Header.{Header};
ghost use Rattle.table_index.specs.Parse.Structure.{counted};

use crate::definitions::read_definitions;
use event_sets::read_sets;
use table::{Refusal, bounds, number_at};
use table_index::layout;

// Stores the alphabet size, the number of definitions and of terms, the place where the definitions
// start, and where the body after the last would stand.
fn store_counts(work: &mut [u64], alphabet: u16, definitions: usize, terms: usize, start: usize)
    requires { (length work.old ≡ 8192) × (definitions ≤ 32) }
    ensures { work.new ≡ counted work.old alphabet definitions terms start }
{
    work[layout::BODIES_AT + definitions] = terms as u64;
    work[layout::ALPHABET_AT] = alphabet as u64;
    work[layout::DEFINITION_COUNT_AT] = definitions as u64;
    work[layout::TERM_COUNT_AT] = terms as u64;
    work[layout::START_AT] = start as u64;
}

// The definitions of a table, whose number stands at a place, and the end of the list.
fn parse_definitions(list: &[u16], work: &mut [u64], sets: usize, at: usize) -> Result<(), Refusal>
    requires { Header list.now work.old sets at }
    ensures { ParseDone list.now work.new result }
{
    let count = number_at(list, at)? as usize;
    if count < 1 {
        return Err(Refusal {
            number: 5,
            place: at,
        });
    }
    if 32 < count {
        return Err(Refusal {
            number: 5,
            place: at,
        });
    }
    let end = read_definitions(list, work, sets, count, at + 1)?;
    if end.next < list.len() {
        return Err(Refusal {
            number: 6,
            place: end.next,
        });
    }
    store_counts(work, list[0], count, end.terms, at + 1);
    Ok(())
}

// The table that a number list is; its sets, terms and definitions stand in the work area.
pub fn parse(list: &[u16], work: &mut [u64]) -> Result<(), Refusal>
    requires { length work.old ≡ 8192 }
    ensures { ParseDone list.now work.new result }
{
    let alphabet = number_at(list, 0)?;
    if alphabet < 1 {
        return Err(Refusal {
            number: 5,
            place: 0,
        });
    }
    if bounds::ALPHABET_MOST < alphabet {
        return Err(Refusal {
            number: 5,
            place: 0,
        });
    }
    let sets = number_at(list, 1)? as usize;
    if 64 < sets {
        return Err(Refusal {
            number: 5,
            place: 1,
        });
    }
    let p = read_sets(list, work, alphabet, sets, 2)?;
    parse_definitions(list, work, sets, p)
}
