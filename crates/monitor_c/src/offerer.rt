// Offer for C. What a call returns and leaves is `offer_call` of crate `words_spec`.
ghost use Rattle.std.specs.Prelude.{◌≡◌};
ghost use Rattle.words_spec.specs.Calls.{offer_said, offer_call};

use words::{load, tell_offer};

// Offer: a bit for each event that may come next; those of the events from 64 on in second.
#[unsafe(no_mangle)]
pub extern "C" fn cspe_offer(
    list: &[u16],
    record: &[u64],
    area0: &[u64],
    area1: &[u64],
    work: &mut [u64],
    value: &mut u64,
    second: &mut u64,
) -> u32
    ensures { offer_said result value.new second.new area0.now
        area1.now work.new
        ≡ offer_call list.now «record».now area0.now
        area1.now work.old }
{
    if record.len() != 5 {
        *value = 0;
        *second = 0;
        return 1;
    }
    let answer = monitor::offer(list, load(record), area0, area1, work);
    tell_offer(answer, value, second)
}
