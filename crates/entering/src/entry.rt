// What stands before an operation's own work: `entrance` and `entrance_on` of crate monitor_spec.
// Where an operation is entered, the table's index stands in the work area, and the operation
// clears it at its end.
ghost use Rattle.std.specs.Prelude.{◌&&◌};
ghost use Rattle.monitor_spec.specs.State.{work_measured};
ghost use Rattle.monitor_spec.specs.Entering.{entrance, entrance_on};
ghost use Rattle.state.specs.Record.{monitor_of};
ghost use Rattle.entering.specs.Entered.{Entered};

use index::IndexedTable;
use state::{State, clear_all, consistent, lengths_fit};
use table::Refusal;

// Refusal 1, where the lengths of lent areas are not right or the work area's is not; then 2 to 9.
pub fn enter(list: &[u16], lent: bool, work: &mut [u64]) -> Result<(), Refusal>
    ensures { Entered (entrance (lent && work_measured work.old) list.now
        work.old) list.now result work.new }
{
    if !lent {
        return Err(Refusal {
            number: 1,
            place: 0,
        });
    }
    judge::check(list, work)
}

// The same for a monitor's areas, and then refusal 10.
pub fn enter_on(
    list: &[u16],
    state: State,
    area0: &[u64],
    area1: &[u64],
    work: &mut [u64],
) -> Result<(), Refusal>
    ensures { Entered (entrance_on list.now
        (monitor_of state area0.now area1.now) work.old)
        list.now result work.new }
{
    match enter(list, lengths_fit(area0.len(), area1.len()), work) {
        Ok(()) => {
            let table = IndexedTable { list, work };
            if consistent(&table, state, area0, area1) {
                return Ok(());
            }
            clear_all(work);
            Err(Refusal {
                number: 10,
                place: 0,
            })
        }
        Err(refusal) => Err(refusal),
    }
}
