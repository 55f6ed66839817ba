// Parts of a line, put one after the other into a lent buffer.
ghost use Rattle.std.specs.Prelude.{◌≡◌, ◌≤◌, length};
ghost use Rattle.state.specs.Record.{state_of, verdict_of};
ghost use Rattle.state.specs.Answers.{bits_of};
ghost use Rattle.trace_spec.specs.TraceLine.{events_from, events_in};
ghost use Rattle.trace_text.specs.TraceText.{number_text, numbers_text, verdict_text};
ghost use Rattle.trace_text.specs.TraceText.{record_text, rest_text};
ghost use Rattle.trace_text.specs.Put.{Fits, Grows};

use state::{EventBits, State, Verdict};

// A lent buffer, of which the first `len` bytes are written. `Text` of crate `format` owns its bytes
// and is seen as a list by a Model, which can hold no `&mut`: so each has a `put` of its own.
#[derive(Drop)]
pub struct Writer<'a> {
    out: &'a mut [u8],
    len: usize,
}

impl<'a> Writer<'a> {
    pub fn new(out: &'a mut [u8]) -> Writer<'a>
        ensures same_buffer { result.out.ghost_name ≡ out.entry.ghost_name }
        ensures empty { (result.out.now ≡ out.old) × (result.len ≡ 0) }
    {
        Writer { out, len: 0 }
    }

    pub fn len(&self) -> usize
        ensures { result ≡ self.now.len }
    {
        self.len
    }

    // Some bytes.
    pub fn put(&mut self, part: &[u8])
        requires { Fits self.old (length part.now) }
        ensures same_buffer { self.new.out.ghost_name ≡ self.old.out.ghost_name }
        ensures grows { Grows (length part.now) self.old part.now self.new }
    {
        let end = self.len + part.len();
        self.out[self.len..end].copy_from_slice(part);
        self.len = end;
    }

    // A space and a number.
    pub fn put_number(&mut self, v: u64)
        requires { Fits self.old 21 }
        ensures same_buffer { self.new.out.ghost_name ≡ self.old.out.ghost_name }
        ensures grows { Grows 21 self.old (number_text v) self.new }
    {
        let mut digits = [0u8; 20];
        let k = io::decimal(v, &mut digits);
        self.put(b" ");
        self.put(&digits[..k]);
    }

    // An event, if its bit is set: the lowest of the word.
    fn put_event(&mut self, word: u64, e: u64)
        requires { Fits self.old 21 }
        ensures same_buffer { self.new.out.ghost_name ≡ self.old.out.ghost_name }
        ensures grows { Grows 21 self.old (numbers_text (events_from word e 1)) self.new }
    {
        if word % 2 == 1 {
            self.put_number(e);
        }
    }

    // The events of a word, of which the first is b.
    fn put_events(&mut self, word: u64, b: u64)
        requires { Fits self.old 1344 × (b ≤ 64) }
        ensures same_buffer { self.new.out.ghost_name ≡ self.old.out.ghost_name }
        ensures grows { Grows 1344 self.old (numbers_text (events_from word b 64)) self.new }
    {
        let mut left = word;
        for i in 0..64 {
            self.put_event(left, b + i);
            left /= 2;
        }
    }

    // The events permitted next.
    fn put_permitted(&mut self, bits: EventBits)
        requires { Fits self.old 2688 }
        ensures same_buffer { self.new.out.ghost_name ≡ self.old.out.ghost_name }
        ensures grows { Grows 2688 self.old (numbers_text (events_in (bits_of bits))) self.new }
    {
        self.put_events(bits.first, 0);
        self.put_events(bits.second, 64);
    }

    // The verdict with its place.
    fn put_verdict(&mut self, verdict: Verdict)
        requires { Fits self.old 29 }
        ensures same_buffer { self.new.out.ghost_name ≡ self.old.out.ghost_name }
        ensures grows { Grows 29 self.old (verdict_text (verdict_of verdict)) self.new }
    {
        match verdict {
            Verdict::Running => {
                self.put(b" running");
                self.put_number(0);
            }
            Verdict::Failed(place) => {
                self.put(b" failed");
                self.put_number(place);
            }
        }
    }

    // Events taken, verdict, residuals and peak.
    fn put_record(&mut self, state: State)
        requires { Fits self.old 92 }
        ensures same_buffer { self.new.out.ghost_name ≡ self.old.out.ghost_name }
        ensures grows { Grows 92 self.old (record_text (state_of state)) self.new }
    {
        self.put_number(state.taken);
        self.put_verdict(state.verdict);
        self.put_number(state.count);
        self.put_number(state.peak);
    }

    // All that follows the event, and a line feed.
    pub fn put_rest(&mut self, state: State, bits: EventBits)
        requires { Fits self.old 2781 }
        ensures same_buffer { self.new.out.ghost_name ≡ self.old.out.ghost_name }
        ensures grows { Grows 2781 self.old (rest_text (state_of state) (bits_of bits)) self.new }
    {
        self.put_record(state);
        self.put_permitted(bits);
        self.put(b"\n");
    }
}
