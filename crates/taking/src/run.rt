// A part of a call's events, one after the other. The promises are in `specs/Runs.antt`.
ghost use Rattle.std.specs.Prelude.{◌≤◌, length};
ghost use Rattle.index.specs.Handle.{table_of};
ghost use Rattle.state.specs.Record.{monitor_of};
ghost use Rattle.leaf_memo.specs.Memo.{StoreOf};
ghost use Rattle.taking.specs.Taking.{Standing};
ghost use Rattle.taking.specs.Runs.{RunBy};

use crate::event::take_event;
use index::IndexedTable;
use state::{Answer, Declined, State};
use table::Refusal;

// Where a run over events comes to: the call's answer, or a record that is reached at a place.
#[derive(Drop)]
pub enum Run {
    Ended(Answer),
    Left(State, usize),
}

// Takes the events from one place on up to another, with what the store keeps of leaves.
pub fn take_each(
    table: &IndexedTable<'_>,
    state: State,
    area0: &mut [u64],
    area1: &mut [u64],
    events: &[u8],
    from: usize,
    to: usize,
    store: &mut [u64],
) -> Run
    requires standing { Standing (table_of table.now) (monitor_of state area0.old area1.old) }
    requires from_in_bounds { (from ≤ length events.now) × (to ≤ length events.now) }
    requires store_of { StoreOf (table_of table.now) store.old }
    ensures { RunBy (table_of table.now)
        (monitor_of state area0.old area1.old) events.now from to
        result area0.new area1.new
        × StoreOf (table_of table.now) store.new }
{
    let mut reached = state;
    for i in from..to {
        match take_event(table, events[i], reached, area0, area1, store) {
            Ok(next) => {
                reached = next;
            }
            Err(number) => {
                return Run::Ended(Err(Declined::Stopped(Refusal { number, place: i }, reached)));
            }
        }
    }
    // none is taken where `to` is before `from`
    Run::Left(reached, from.max(to))
}
