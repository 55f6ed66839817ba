// Try (document 02, W4: "gives Feed's answer, refusals included. The further areas end as Feed
// would leave a copy of the first two"): what it comes to is `try_of` of crate monitor_spec.
ghost use Rattle.std.specs.Prelude.{◌≡◌, length};
ghost use Rattle.index.specs.Handle.{table_of};
ghost use Rattle.monitor_spec.specs.Try.{try_of};
ghost use Rattle.state.specs.Record.{monitor_of};
ghost use Rattle.state.specs.Answers.{outcome};
ghost use Rattle.feeding.specs.Feeding.{Standing, EndedBy};

use crate::copy::copy_words;
use entering::enter_on;
use feeding::take_all;
use index::IndexedTable;
use state::{Answer, Declined, State, clear_all};
use table::Refusal;

// Feed's run on a copy of the two areas, where the table's index stands in the work area.
fn run_on_copy(
    table: &IndexedTable<'_>,
    state: State,
    area0: &[u64],
    area1: &[u64],
    further0: &mut [u64],
    further1: &mut [u64],
    events: &[u8],
) -> Answer
    requires standing { Standing (table_of table.now) (monitor_of state area0.now area1.now) }
    requires further0_len { length further0.old ≡ length area0.now }
    requires further1_len { length further1.old ≡ length area1.now }
    ensures { EndedBy (table_of table.now)
        (monitor_of state area0.now area1.now) events.now
        result further0.new further1.new }
{
    copy_words(area0, further0);
    copy_words(area1, further1);
    take_all(table, state, further0, further1, events)
}

// Feed's answer to these events, and in the further areas what Feed would leave. The first two
// areas are only read; on refusals 1 to 10 the further areas are kept.
pub fn try_feed(
    list: &[u16],
    state: State,
    area0: &[u64],
    area1: &[u64],
    further0: &mut [u64],
    further1: &mut [u64],
    events: &[u8],
    work: &mut [u64],
) -> Answer
    ensures { outcome result further0.new further1.new work.new
        ≡ try_of list.now (monitor_of state area0.now area1.now)
        further0.old further1.old
        events.now work.old }
{
    if further0.len() != area0.len() {
        return Err(Declined::Refused(Refusal {
            number: 1,
            place: 0,
        }));
    }
    if further1.len() != area1.len() {
        return Err(Declined::Refused(Refusal {
            number: 1,
            place: 0,
        }));
    }
    match enter_on(list, state, area0, area1, work) {
        Ok(()) => {
            let table = IndexedTable { list, work };
            let answer = run_on_copy(&table, state, area0, area1, further0, further1, events);
            clear_all(work);
            answer
        }
        Err(refusal) => Err(Declined::Refused(refusal)),
    }
}
