// The answer of a feeding call in wash hours in words. The definitions are in `specs/Call.antt`.
ghost use Rattle.std.specs.Prelude.{◌≡◌, length};
ghost use Rattle.wash_state.specs.Answers.{timed_answer_of};
ghost use Rattle.wash_words.specs.Call.{TimedTold};

use crate::record::store_timed;
use state::Declined;
use wash_state::TimedAnswer;

// The number to return; the place goes into place, and the record, if there is one, into record.
pub fn tell_timed(answer: TimedAnswer, record: &mut [u64], place: &mut u64) -> u32
    requires { length «record».old ≡ 7 }
    ensures { TimedTold (timed_answer_of answer) «record».old result place.new
        «record».new }
{
    match answer {
        Ok(state) => {
            store_timed(record, state);
            *place = 0;
            0
        }
        Err(Declined::Refused(refusal)) => {
            *place = refusal.place as u64;
            refusal.number as u32
        }
        Err(Declined::Stopped(why, state)) => {
            store_timed(record, state);
            *place = why.place as u64;
            why.number as u32
        }
    }
}
