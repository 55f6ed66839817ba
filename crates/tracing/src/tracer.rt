// One event more of a trace.
ghost use Rattle.std.specs.Prelude.{◌≡◌, length};
ghost use Rattle.state.specs.Record.{monitor_of};
ghost use Rattle.feeding.specs.Feeding.{step_words};
ghost use Rattle.tracing.specs.Tracing.{Tracing, TracedBy};

use crate::answer::{Refused, Traced};
use feeding::take_anew;
use offering::offered;
use state::{IndexedTable, State};

// Takes one event: the record after it and the events permitted next; or a refusal, with the areas
// kept. The store is for a step's own use.
pub fn trace_event(
    list: &[u16],
    work: &[u64],
    e: u8,
    state: State,
    area0: &mut [u64],
    area1: &mut [u64],
    store: &mut [u64],
) -> Result<Traced, Refused>
    requires tracing { Tracing list.now work.now (monitor_of state area0.old area1.old) }
    requires store_len { length store.old ≡ step_words }
    ensures { TracedBy list.now work.now
        (monitor_of state area0.old area1.old) e
        result area0.new area1.new }
{
    let table = IndexedTable { list, work };
    match take_anew(&table, e, state, area0, area1, store) {
        Ok(next) => Ok(Traced {
            state: next,
            permitted: offered(&table, next, area0, area1),
        }),
        Err(number) => Err(Refused {
            number,
            place: state.taken,
        }),
    }
}
