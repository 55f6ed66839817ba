// The text of a line, by its kind: the bytes of the buffer before the count that is answered. A
// buffer that may have too little room gets none.
ghost use Rattle.state.specs.Record.{state_of};
ghost use Rattle.state.specs.Answers.{bits_of};
ghost use Rattle.trace_spec.specs.TraceLine.{starts, takes, refuses};
ghost use Rattle.trace_text.specs.TraceText.{trace_text_of};
ghost use Rattle.trace_text.specs.Put.{PutsText};

use crate::parts::Writer;
use state::{EventBits, State};

// No line is longer: 128 events and five numbers of 20 digits, each after a space, and some words.
const ROOM: usize = 2816;

// Before any event.
pub fn start_text(state: State, permitted: EventBits, out: &mut [u8]) -> usize
    ensures { PutsText out.new result (trace_text_of (starts (state_of state) (bits_of permitted))) }
{
    if out.len() < ROOM {
        return 0;
    }
    let mut text = Writer::new(out);
    text.put(b"start -");
    text.put_rest(state, permitted);
    text.len()
}

// After an event.
pub fn event_text(e: u8, state: State, permitted: EventBits, out: &mut [u8]) -> usize
    ensures { PutsText out.new result
        (trace_text_of (takes e (state_of state) (bits_of permitted))) }
{
    if out.len() < ROOM {
        return 0;
    }
    let mut text = Writer::new(out);
    text.put(b"event");
    text.put_number(e as u64);
    text.put_rest(state, permitted);
    text.len()
}

// A refusal.
pub fn refusal_text(number: u8, place: u64, out: &mut [u8]) -> usize
    ensures { PutsText out.new result (trace_text_of (refuses number place)) }
{
    if out.len() < ROOM {
        return 0;
    }
    let mut text = Writer::new(out);
    text.put(b"refused");
    text.put_number(number as u64);
    text.put_number(place);
    text.put(b"\n");
    text.len()
}
