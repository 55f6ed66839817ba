// A long run of events, stretch by stretch: over the sets met, and one after the other where that
// is given up (docs/DECISIONS.md, "When a call keeps the sets that it meets, and when it gives that
// up").
ghost use Rattle.std.specs.Prelude.{◌≡◌, ◌≤◌, ◌<◌, length};
ghost use Rattle.index.specs.Handle.{table_of};
ghost use Rattle.leaf_memo.specs.Memo.{StoreOf};
ghost use Rattle.state.specs.Record.{monitor_of};
ghost use Rattle.taking.specs.Taking.{Standing};
ghost use Rattle.taking.specs.Runs.{EndedFrom, RunBy};

use index::IndexedTable;
use met_sets::MetSets;
use set_runs::take_kept;
use state::{Answer, State};
use taking::{Run, take_each};

// The place up to which events are taken one after the other where the sets that were begun at
// place i are given up: four times as far, of so many events.
fn further(i: usize, length: usize) -> usize
    requires { i < length }
    ensures { (i < result) × (result ≤ length) }
{
    if (length - i) / 3 <= i {
        return length;
    }
    i + 3 * i + 1
}

// Takes the events from one place on: over the sets met, and where that is given up, one after the
// other up to another place.
fn take_stretch(
    table: &IndexedTable<'_>,
    sets: &mut MetSets,
    state: State,
    area0: &mut [u64],
    area1: &mut [u64],
    events: &[u8],
    from: usize,
    to: usize,
    store: &mut [u64],
) -> Run
    requires standing { Standing (table_of table.now) (monitor_of state area0.old area1.old) }
    requires from_in_bounds { (from ≤ length events.now) × (to ≤ length events.now) }
    requires store_of { StoreOf (table_of table.now) store.old }
    ensures { RunBy (table_of table.now)
        (monitor_of state area0.old area1.old) events.now from to
        result area0.new area1.new
        × StoreOf (table_of table.now) store.new }
{
    match take_kept(table, sets, state, area0, area1, events, from, store) {
        Run::Ended(answer) => Run::Ended(answer),
        Run::Left(reached, i) => { take_each(table, reached, area0, area1, events, i, to, store) }
    }
}

// Takes the events from a place on, all of them, stretch by stretch.
pub fn take_long(
    table: &IndexedTable<'_>,
    state: State,
    area0: &mut [u64],
    area1: &mut [u64],
    events: &[u8],
    from: usize,
    store: &mut [u64],
) -> Answer
    requires standing { Standing (table_of table.now) (monitor_of state area0.old area1.old) }
    requires from_in_bounds { from ≤ length events.now }
    requires store_of { StoreOf (table_of table.now) store.old }
    ensures { EndedFrom (table_of table.now)
        (monitor_of state area0.old area1.old) events.now from
        result area0.new area1.new }
{
    let mut sets = MetSets::new();
    let mut reached = state;
    let mut i = from;
    // no index: a stretch says where the next begins
    while i < events.len() {
        let to = further(i, events.len());
        match take_stretch(
            table, &mut sets, reached, area0, area1, events, i, to, store,
        ) {
            Run::Ended(answer) => {
                return answer;
            }
            Run::Left(s, j) => {
                reached = s;
                i = j;
            }
        }
    }
    Ok(reached)
}
