// What stands before the first event of a call (document 02, W5: "16 bad timetable, after both
// tables, the everyday one first, and before 10"): `timed_entrance` of crate wash_spec.
ghost use Rattle.std.specs.Prelude.{◌≡◌, true, ◌&&◌, eqb, length};
ghost use Rattle.table_index.specs.Index.{table_in, Indexed};
ghost use Rattle.monitor_spec.specs.State.{lengths_fit, areas_measured, work_measured};
ghost use Rattle.wash_spec.specs.Entering.{scheduling, timed_entrance};
ghost use Rattle.wash_state.specs.Answers.{timed_monitor_of};
ghost use Rattle.wash_start.specs.Fresh.{ListAccepted};
ghost use Rattle.wash_entering.specs.Entering.{AgreedAt, Agreed, TimedEntered, after_everyday};

use entering::enter;
use index::IndexedTable;
use state::{State, clear_all, consistent, lengths_fit};
use table::Refusal;
use timetable::{good_timetable, in_force};
use wash_start::stand;
use wash_state::TimedState;

// Whether lent lengths are right: those of the areas, and as many minutes as events.
fn lent_fit(a: usize, b: usize, events: usize, minutes: usize) -> bool
    ensures { result ≡ (lengths_fit a b && eqb events minutes) }
{
    if lengths_fit(a, b) {
        return events == minutes;
    }
    false
}

// Whether state and areas agree on the table in force at the last event's minute, whose index
// stands afterwards. That of the table for wash hours stands before.
fn agrees_at(
    everyday: &[u16],
    wash: &[u16],
    windows: &[u16],
    state: State,
    last: u64,
    area0: &[u64],
    area1: &[u64],
    work: &mut [u64],
) -> bool
    requires list_accepted { ListAccepted everyday.now × Indexed wash.now work.old }
    requires area0_len { (length area0.now ≡ length area1.now) × (length work.old ≡ 8192) }
    ensures { AgreedAt everyday.now wash.now windows.now state last
        area0.now area1.now result work.new }
{
    if in_force(windows, last) {
        let table = IndexedTable { list: wash, work };
        return consistent(&table, state, area0, area1);
    }
    stand(everyday, work);
    let table = IndexedTable {
        list: everyday,
        work,
    };
    consistent(&table, state, area0, area1)
}

// Whether state and areas agree: refusal 10 is not met. Before the first event the areas hold no
// residual.
fn agrees(
    everyday: &[u16],
    wash: &[u16],
    windows: &[u16],
    state: TimedState,
    area0: &[u64],
    area1: &[u64],
    work: &mut [u64],
) -> bool
    requires list_accepted { ListAccepted everyday.now × Indexed wash.now work.old }
    requires area0_len { (length area0.now ≡ length area1.now) × (length work.old ≡ 8192) }
    ensures { Agreed everyday.now wash.now windows.now state
        area0.now area1.now result work.new }
{
    match state {
        TimedState::NotStarted => {
            let table = IndexedTable { list: wash, work };
            consistent(&table, State::fresh(0), area0, area1)
        }
        TimedState::Started(record, last) => {
            agrees_at(everyday, wash, windows, record, last, area0, area1, work)
        }
    }
}

// The timetable, then the state, where both tables are good and the index of the one for wash hours
// stands.
fn schedule(
    everyday: &[u16],
    wash: &[u16],
    windows: &[u16],
    state: TimedState,
    area0: &[u64],
    area1: &[u64],
    work: &mut [u64],
) -> Result<(), Refusal>
    requires list_accepted { ListAccepted everyday.now × Indexed wash.now work.old }
    requires area1_value { (areas_measured area0.now area1.now ≡ true) × (length work.old ≡ 8192) }
    ensures { TimedEntered (scheduling windows.now
        (timed_monitor_of state area0.now area1.now) 8192
        (table_in everyday.now) (table_in wash.now))
        everyday.now wash.now windows.now state
        area0.now area1.now result work.new }
{
    if !good_timetable(windows) {
        clear_all(work);
        return Err(Refusal {
            number: 16,
            place: 0,
        });
    }
    if agrees(everyday, wash, windows, state, area0, area1, work) {
        return Ok(());
    }
    clear_all(work);
    Err(Refusal {
        number: 10,
        place: 0,
    })
}

// The table for wash hours, then the timetable and the state, where the everyday table is good.
fn enter_wash(
    everyday: &[u16],
    wash: &[u16],
    windows: &[u16],
    state: TimedState,
    area0: &[u64],
    area1: &[u64],
    work: &mut [u64],
) -> Result<(), Refusal>
    requires list_accepted { ListAccepted everyday.now × (length work.old ≡ 8192) }
    requires area1_value { areas_measured area0.now area1.now ≡ true }
    ensures { TimedEntered (after_everyday everyday.now wash.now
        windows.now (timed_monitor_of state area0.now area1.now))
        everyday.now wash.now windows.now state
        area0.now area1.now result work.new }
{
    match enter(wash, true, work) {
        Ok(()) => schedule(everyday, wash, windows, state, area0, area1, work),
        Err(refusal) => Err(refusal),
    }
}

// All that stands before the first event, where so many events and minutes are lent.
pub fn enter_timed(
    everyday: &[u16],
    wash: &[u16],
    windows: &[u16],
    state: TimedState,
    area0: &[u64],
    area1: &[u64],
    events: usize,
    minutes: usize,
    work: &mut [u64],
) -> Result<(), Refusal>
    ensures { TimedEntered (timed_entrance everyday.now wash.now
        windows.now (timed_monitor_of state area0.now area1.now)
        ((areas_measured area0.now area1.now
        && work_measured work.old) && eqb events minutes) work.old)
        everyday.now wash.now windows.now state
        area0.now area1.now result work.new }
{
    match enter(
        everyday,
        lent_fit(area0.len(), area1.len(), events, minutes),
        work,
    ) {
        Ok(()) => enter_wash(everyday, wash, windows, state, area0, area1, work),
        Err(refusal) => Err(refusal),
    }
}
