// Open: the residuals of the last definition, and then events (document 02, W7; document 01,
// "Operations"). The promises are in `specs/Opening.antt`; the whole outcome is `open_of` of crate
// monitor_spec.
ghost use Rattle.std.specs.Prelude.{◌≡◌, true};
ghost use Rattle.index.specs.Handle.{table_of};
ghost use Rattle.monitor_spec.specs.State.{areas_measured};
ghost use Rattle.monitor_spec.specs.Open.{open_of};
ghost use Rattle.state.specs.Answers.{outcome};
ghost use Rattle.opening.specs.Opening.{Resolved, OpenedBy};

use entering::enter;
use feeding::take_all;
use index::IndexedTable;
use set_step::Exceeded;
use state::{Answer, Declined, State, clear_all, lengths_fit};
use table::Refusal;

// The residuals of the last definition into area 0, zeroes into area 1, where the table's index
// stands in the work area. Where they exceed the slots, both areas are zero.
pub fn resolve_last(
    table: &IndexedTable<'_>,
    area0: &mut [u64],
    area1: &mut [u64],
) -> Result<usize, Exceeded>
    requires area1_value { areas_measured area0.old area1.old ≡ true }
    ensures { Resolved (table_of table.now) area0.old
        result area0.new area1.new }
{
    clear_all(area0);
    clear_all(area1);
    let last = table.definition_count() - 1;
    match set_step::resolve_set(table, last, area0) {
        Ok(count) => Ok(count),
        Err(Exceeded) => {
            clear_all(area0);
            Err(Exceeded)
        }
    }
}

// Open of an accepted table: what is resolved, and then Feed's run from there.
fn open_accepted(
    table: &IndexedTable<'_>,
    area0: &mut [u64],
    area1: &mut [u64],
    events: &[u8],
) -> Answer
    requires area1_value { areas_measured area0.old area1.old ≡ true }
    ensures { OpenedBy (table_of table.now) area0.old events.now
        result area0.new area1.new }
{
    match resolve_last(table, area0, area1) {
        Ok(count) => {
            let fresh = State::fresh(count as u64);
            take_all(table, fresh, area0, area1, events)
        }
        Err(Exceeded) => Err(Declined::Refused(Refusal {
            number: 13,
            place: 0,
        })),
    }
}

// Opens a monitor and takes events. Lent lengths are tried first, then the list; the work area is
// cleared last. Refusal 13 at place 0 without a record: the residuals of the last definition exceed
// the slots; with one: those after the first event do.
pub fn open(
    list: &[u16],
    area0: &mut [u64],
    area1: &mut [u64],
    events: &[u8],
    work: &mut [u64],
) -> Answer
    ensures { outcome result area0.new area1.new work.new
        ≡ open_of list.now area0.old area1.old
        events.now work.old }
{
    match enter(list, lengths_fit(area0.len(), area1.len()), work) {
        Ok(()) => {
            let table = IndexedTable { list, work };
            let answer = open_accepted(&table, area0, area1, events);
            clear_all(work);
            answer
        }
        Err(refusal) => Err(Declined::Refused(refusal)),
    }
}
