// One event with its minute (document 02, W5): 17, then a fresh start where one is due, then 11 to
// 13. The promises are in `specs/Event.antt`.
ghost use Rattle.std.specs.Prelude.{◌≡◌, true, length};
ghost use Rattle.tree_walk.specs.Layout.{store_words};
ghost use Rattle.monitor_spec.specs.State.{areas_measured};
ghost use Rattle.wash_start.specs.Fresh.{ListAccepted};
ghost use Rattle.wash_start.specs.Standing.{TimedReady};
ghost use Rattle.wash_event.specs.Event.{OnReady, OnBy, TimedBy};

use feeding::take_anew;
use index::IndexedTable;
use state::State;
use timetable::in_force;
use wash_clock::{clock_back, start_due};
use wash_start::take_fresh;
use wash_state::TimedState;

// Takes event e on a table, afresh where that is due; otherwise its index stands.
fn take_on(
    list: &[u16],
    work: &mut [u64],
    due: bool,
    state: TimedState,
    e: u8,
    area0: &mut [u64],
    area1: &mut [u64],
    store: &mut [u64],
) -> Result<State, u8>
    requires list_accepted { ListAccepted list.now × (length work.old ≡ 8192) }
    requires area1_value { areas_measured area0.old area1.old ≡ true }
    requires on_ready { OnReady list.now work.old due state area0.old area1.old }
    requires store_len { length store.old ≡ store_words }
    ensures { OnBy list.now due state e area0.old area1.old
        result area0.new area1.new work.new }
{
    match state {
        TimedState::NotStarted => take_fresh(list, work, e, true, area0, area1, store),
        TimedState::Started(record, _) => {
            if due {
                return take_fresh(list, work, e, record.taken % 2 == 0, area0, area1, store);
            }
            let table = IndexedTable { list, work };
            take_anew(&table, e, record, area0, area1, store)
        }
    }
}

// Takes one event with its minute, on the table in force then; or refuses it and keeps the areas.
pub fn take_timed(
    everyday: &[u16],
    wash: &[u16],
    windows: &[u16],
    state: TimedState,
    e: u8,
    minute: u64,
    area0: &mut [u64],
    area1: &mut [u64],
    work: &mut [u64],
    store: &mut [u64],
) -> Result<State, u8>
    requires timed_ready { TimedReady everyday.now wash.now windows.now state
        area0.old area1.old work.old }
    requires store_len { length store.old ≡ store_words }
    ensures { TimedBy everyday.now wash.now windows.now
        state e minute area0.old area1.old
        result area0.new area1.new work.new }
{
    if clock_back(state, minute) {
        return Err(17);
    }
    let due = start_due(windows, state, minute);
    if in_force(windows, minute) {
        return take_on(wash, work, due, state, e, area0, area1, store);
    }
    take_on(everyday, work, due, state, e, area0, area1, store)
}
