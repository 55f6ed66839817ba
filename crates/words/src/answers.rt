// Answers of Open, Feed and Offer in words. The definitions are in crate `words_spec`.
ghost use Rattle.std.specs.Prelude.{◌≡◌, length};
ghost use Rattle.state.specs.Answers.{answer_of, offered_of};
ghost use Rattle.words_spec.specs.Calls.{opened_of, MonitorTold, OfferTold};

use crate::record::store;
use state::{Answer, Declined, EventBits};
use table::Refusal;

// Of Open and Feed. The number to return; the place goes into place, and the record, if there is
// one, into record.
pub fn tell(answer: Answer, record: &mut [u64], place: &mut u64) -> u32
    requires { length «record».old ≡ 5 }
    ensures { MonitorTold (answer_of answer) «record».old result place.new
        «record».new }
{
    match answer {
        Ok(state) => {
            store(record, state);
            *place = 0;
            0
        }
        Err(Declined::Refused(refusal)) => {
            *place = refusal.place as u64;
            refusal.number as u32
        }
        Err(Declined::Stopped(why, state)) => {
            store(record, state);
            *place = why.place as u64;
            why.number as u32
        }
    }
}

// Of Open: 1 where the answer has a record, else 0.
pub fn has_record(answer: Answer) -> u64
    ensures { result ≡ opened_of (answer_of answer) }
{
    match answer {
        Ok(_) => 1,
        Err(Declined::Refused(_)) => 0,
        Err(Declined::Stopped(_, _)) => 1,
    }
}

// Of Offer. The number to return; the first word or the place goes into value, the second word or 0
// into second.
pub fn tell_offer(answer: Result<EventBits, Refusal>, value: &mut u64, second: &mut u64) -> u32
    ensures { OfferTold (offered_of answer) result value.new second.new }
{
    match answer {
        Ok(bits) => {
            *value = bits.first;
            *second = bits.second;
            0
        }
        Err(r) => {
            *value = r.place as u64;
            *second = 0;
            r.number as u32
        }
    }
}
