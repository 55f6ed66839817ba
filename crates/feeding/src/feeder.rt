// Feed (document 01, "Operations", "When the monitor declines"): what it comes to is `feed_of` of
// crate monitor_spec.
ghost use Rattle.std.specs.Prelude.{◌≡◌, ◌≤◌, length};
ghost use Rattle.index.specs.Handle.{table_of};
ghost use Rattle.monitor_spec.specs.Feed.{feed_of};
ghost use Rattle.leaf_memo.specs.Memo.{StoreOf};
ghost use Rattle.state.specs.Record.{monitor_of};
ghost use Rattle.state.specs.Answers.{outcome};
ghost use Rattle.taking.specs.Taking.{Standing};
ghost use Rattle.taking.specs.Runs.{EndedFrom};
ghost use Rattle.feeding.specs.Feeding.{EndedBy};
ghost use Rattle.feeding.specs.Alone.{alone_to};

use entering::enter_on;
use index::IndexedTable;
use long_runs::take_long;
use set_step::STORE_WORDS;
use state::{Answer, Declined, State, clear_all};
use taking::{Run, take_each};

// So many events of a call are taken one after the other, whatever the table.
const FIRST_EVENTS: usize = 8;

// With fewer than so many residuals, events are taken one after the other up to the one place, else
// up to the other, before a set is kept.
const MANY_RESIDUALS: u64 = 32;

const ALONE_WITH_FEW: usize = 112;

const ALONE_WITH_MANY: usize = 32;

// The place up to which events are taken one after the other before a set is kept: from one place
// on of so many events, where there are so many residuals, and where steps are long or not.
fn alone(from: usize, length: usize, count: u64, long: bool) -> usize
    requires { from ≤ length }
    ensures { (result ≡ alone_to from length count long) × (result ≤ length) }
{
    if long {
        return from;
    }
    if count < MANY_RESIDUALS {
        return from.max(ALONE_WITH_FEW.min(length));
    }
    from.max(ALONE_WITH_MANY.min(length))
}

// Takes the events from a place on, all of them. Where the store keeps results of a leaf, a
// residual was met that goes the general way: steps take long, so that learning pays at once.
fn take_rest(
    table: &IndexedTable<'_>,
    state: State,
    area0: &mut [u64],
    area1: &mut [u64],
    events: &[u8],
    from: usize,
    store: &mut [u64],
) -> Answer
    requires standing { Standing (table_of table.now) (monitor_of state area0.old area1.old) }
    requires from_in_bounds { from ≤ length events.now }
    requires store_of { StoreOf (table_of table.now) store.old }
    ensures { EndedFrom (table_of table.now)
        (monitor_of state area0.old area1.old) events.now from
        result area0.new area1.new }
{
    let to = alone(from, events.len(), state.count, set_step::keeps_some(store));
    match take_each(table, state, area0, area1, events, from, to, store) {
        Run::Ended(answer) => answer,
        Run::Left(reached, i) => {
            if events.len() <= i {
                return Ok(reached);
            }
            take_long(table, reached, area0, area1, events, i, store)
        }
    }
}

// Takes the events from the first, until one is refused, where the table's index stands in the work
// area: the run of an operation that is entered, without a judging. A store of zeros keeps nothing.
pub fn take_all(
    table: &IndexedTable<'_>,
    state: State,
    area0: &mut [u64],
    area1: &mut [u64],
    events: &[u8],
) -> Answer
    requires standing { Standing (table_of table.now) (monitor_of state area0.old area1.old) }
    ensures { EndedBy (table_of table.now)
        (monitor_of state area0.old area1.old) events.now
        result area0.new area1.new }
{
    let mut store = [0u64; STORE_WORDS];
    let to = FIRST_EVENTS.min(events.len());
    match take_each(table, state, area0, area1, events, 0, to, &mut store) {
        Run::Ended(answer) => answer,
        Run::Left(reached, i) => {
            if events.len() <= i {
                return Ok(reached);
            }
            take_rest(table, reached, area0, area1, events, i, &mut store)
        }
    }
}

// Takes events: the record after them, or a refusal.
pub fn feed(
    list: &[u16],
    state: State,
    area0: &mut [u64],
    area1: &mut [u64],
    events: &[u8],
    work: &mut [u64],
) -> Answer
    ensures { outcome result area0.new area1.new work.new
        ≡ feed_of list.now
        (monitor_of state area0.old area1.old)
        events.now work.old }
{
    match enter_on(list, state, area0, area1, work) {
        Ok(()) => {
            let table = IndexedTable { list, work };
            let answer = take_all(&table, state, area0, area1, events);
            clear_all(work);
            answer
        }
        Err(refusal) => Err(Declined::Refused(refusal)),
    }
}
