// Events over the residual sets that a call has met (crate met_sets). The promises are in
// `specs/Turns.antt` and `specs/Learning.antt`.
ghost use Rattle.std.specs.Prelude.{◌≡◌, ◌≤◌, ◌<◌, ◌^◌, length};
ghost use Rattle.index.specs.Handle.{table_of};
ghost use Rattle.leaf_memo.specs.Memo.{StoreOf};
ghost use Rattle.state.specs.Record.{monitor_of};
ghost use Rattle.taking.specs.Taking.{Standing};
ghost use Rattle.taking.specs.Runs.{RunBy};
ghost use Rattle.set_runs.specs.Turns.{Goes, TurnBy, GoesBy};
ghost use Rattle.set_runs.specs.Learning.{may_learn, has_paid};

use index::IndexedTable;
use learning::learn;
use met_sets::{Followed, MetSets};
use picking::{lay_set, pick_first};
use state::State;
use std::ops::ControlFlow::{self, Break, Continue};
use taking::Run;

// Whether one transition more may be learnt, where so many events were taken before the first set
// was kept and so many since, and so many transitions were learnt since.
fn may_learn(before: usize, since: usize, learnt: usize) -> bool
    ensures { result ≡ may_learn before since learnt }
{
    learnt < 4 + before / 64 + since / 8
}

// Whether what was learnt has paid.
fn has_paid(since: usize, learnt: usize) -> bool
    ensures { result ≡ has_paid since learnt }
{
    learnt <= since / 8
}

// Takes the events whose transitions are known, from a set on, and then one more, if that may be
// learnt: the first set was kept at place `from`, and so many transitions were learnt since. It tells
// where the run is over, or the record and the set kept from which it goes on.
fn take_turn(
    table: &IndexedTable<'_>,
    sets: &mut MetSets,
    at: Followed,
    area0: &mut [u64],
    area1: &mut [u64],
    events: &[u8],
    from: usize,
    learnt: usize,
    store: &mut [u64],
) -> ControlFlow<Run, Followed>
    requires from_le_at { (from ≤ at.place) × (at.place ≤ length events.now) × (length events.now < 2 ^ 64) }
    requires goes { Goes (table_of table.now) events.now sets.old at area0.old area1.old }
    requires store_of { StoreOf (table_of table.now) store.old }
    ensures { TurnBy (table_of table.now) events.now sets.old at area0.old area1.old
        result sets.new area0.new area1.new
        × StoreOf (table_of table.now) store.new }
{
    let to = events.len();
    let reached = sets.follow(events, at, to);
    lay_set(sets, reached.set, reached.state, area0, area1);
    if to <= reached.place {
        return Break(Run::Left(reached.state, reached.place));
    }
    let since = reached.place - from;
    if !may_learn(from, since, learnt) {
        return Break(Run::Left(reached.state, reached.place));
    }
    learn(
        table,
        sets,
        reached,
        area0,
        area1,
        events,
        has_paid(since, learnt),
        store,
    )
}

// Takes events from a set on, turn by turn, until one may not be learnt, a set has no room and what
// was learnt has not paid, or none is left.
fn take_turns(
    table: &IndexedTable<'_>,
    sets: &mut MetSets,
    first: Followed,
    area0: &mut [u64],
    area1: &mut [u64],
    events: &[u8],
    store: &mut [u64],
) -> Run
    requires first_in_bounds { first.place ≤ length events.now }
    requires goes { Goes (table_of table.now) events.now sets.old first area0.old area1.old }
    requires store_of { StoreOf (table_of table.now) store.old }
    ensures { GoesBy (table_of table.now) events.now sets.old first area0.old area1.old
        result area0.new area1.new
        × StoreOf (table_of table.now) store.new }
{
    let from = first.place;
    let mut at = first;
    let mut learnt = 0;
    // no index: each turn goes on from where the one before it came to
    loop {
        match take_turn(table, sets, at, area0, area1, events, from, learnt, store) {
            Break(run) => {
                return run;
            }
            Continue(next) => {
                at = next;
                learnt += 1;
            }
        }
    }
}

// Takes events from a place on over sets, none of which is known yet; where that ends, `take_turns`
// says.
pub fn take_kept(
    table: &IndexedTable<'_>,
    sets: &mut MetSets,
    state: State,
    area0: &mut [u64],
    area1: &mut [u64],
    events: &[u8],
    from: usize,
    store: &mut [u64],
) -> Run
    requires standing { Standing (table_of table.now) (monitor_of state area0.old area1.old) }
    requires from_in_bounds { from ≤ length events.now }
    requires store_of { StoreOf (table_of table.now) store.old }
    ensures { RunBy (table_of table.now)
        (monitor_of state area0.old area1.old) events.now from from
        result area0.new area1.new
        × StoreOf (table_of table.now) store.new }
{
    sets.begin(table.alphabet() as usize);
    match pick_first(sets, state, area0, area1) {
        None => Run::Left(state, from),
        Some(set) => {
            let first = Followed {
                state,
                set,
                place: from,
            };
            take_turns(table, sets, first, area0, area1, events, store)
        }
    }
}
