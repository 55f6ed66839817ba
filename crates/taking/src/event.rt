// One event (document 01, "Operations": "each event fills the other and zeroes the first"; refusals
// 11 to 13). The promises are in `specs/Taking.antt`.
ghost use Rattle.std.specs.Prelude.{◌≡◌, length};
ghost use Rattle.index.specs.Handle.{table_of};
ghost use Rattle.monitor_spec.specs.State.{slot_count};
ghost use Rattle.state.specs.Record.{monitor_of};
ghost use Rattle.tree_walk.specs.Layout.{store_words};
ghost use Rattle.leaf_memo.specs.Memo.{StoreOf};
ghost use Rattle.monitor_spec.specs.Holds.{AreaHolds, held_in};
ghost use Rattle.taking.specs.Taking.{Empty, NextBy, Holding, Standing, Advanced};
ghost use Rattle.taking.specs.Taking.{Moved, TakenBy};

use index::IndexedTable;
use set_step::Exceeded;
use state::{State, clear_all, clear_first};

// Fills the destination, which is zero, with the residuals after event e of those that the source
// holds; so many events were taken before. The destination's slots are the most that there may be.
// It gives how many there are, or the number of a refusal: then the destination is zero again. The
// store is for a step's own use.
pub fn next_set(
    table: &IndexedTable<'_>,
    e: u8,
    taken: u64,
    source: &[u64],
    count: usize,
    destination: &mut [u64],
    store: &mut [u64],
) -> Result<usize, u8>
    requires area_holds { AreaHolds (table_of table.now) source.now count }
    requires empty { Empty destination.old × StoreOf (table_of table.now) store.old }
    ensures { NextBy (table_of table.now) (slot_count destination.old) taken
        (held_in (table_of table.now) source.now count) e
        result destination.new
        × StoreOf (table_of table.now) store.new }
{
    let event = e as u64;
    if table.alphabet() <= event {
        return Err(11);
    }
    if taken == u64::MAX {
        return Err(12);
    }
    match set_step::step_set(table, event, source, count, store, destination) {
        Ok(c) => Ok(c),
        Err(Exceeded) => {
            clear_all(destination);
            Err(13)
        }
    }
}

// Fills the other area with the residuals after event e, and zeroes the words in use of the present
// one; where the event is refused, both areas are as they were.
pub fn advance(
    table: &IndexedTable<'_>,
    e: u8,
    taken: u64,
    count: usize,
    present: &mut [u64],
    other: &mut [u64],
    store: &mut [u64],
) -> Result<usize, u8>
    requires holding { Holding (table_of table.now) present.old other.old count }
    requires store_of { StoreOf (table_of table.now) store.old }
    ensures { Advanced (table_of table.now) e taken count
        present.old other.old
        result present.new other.new
        × StoreOf (table_of table.now) store.new }
{
    let after = next_set(table, e, taken, present, count, other, store)?;
    clear_first(present, count * 16);
    Ok(after)
}

// The same, where the present area is the one that the parity of the events taken says.
fn advance_present(
    table: &IndexedTable<'_>,
    e: u8,
    state: State,
    area0: &mut [u64],
    area1: &mut [u64],
    store: &mut [u64],
) -> Result<usize, u8>
    requires standing { Standing (table_of table.now) (monitor_of state area0.old area1.old) }
    requires store_of { StoreOf (table_of table.now) store.old }
    ensures { Moved (table_of table.now)
        (monitor_of state area0.old area1.old) e
        result area0.new area1.new
        × StoreOf (table_of table.now) store.new }
{
    let taken = state.taken;
    let count = state.count as usize;
    if taken % 2 == 0 {
        return advance(table, e, taken, count, area0, area1, store);
    }
    advance(table, e, taken, count, area1, area0, store)
}

// Takes one event, or refuses it and keeps the areas. The store is for a step's own use.
pub fn take_event(
    table: &IndexedTable<'_>,
    e: u8,
    state: State,
    area0: &mut [u64],
    area1: &mut [u64],
    store: &mut [u64],
) -> Result<State, u8>
    requires standing { Standing (table_of table.now) (monitor_of state area0.old area1.old) }
    requires store_of { StoreOf (table_of table.now) store.old }
    ensures { TakenBy (table_of table.now)
        (monitor_of state area0.old area1.old) e
        result area0.new area1.new
        × StoreOf (table_of table.now) store.new }
{
    match advance_present(table, e, state, area0, area1, store) {
        Ok(count) => Ok(state.after(count as u64)),
        Err(number) => Err(number),
    }
}

// The same, where the store may keep leaves of another table: they are forgotten first.
pub fn take_anew(
    table: &IndexedTable<'_>,
    e: u8,
    state: State,
    area0: &mut [u64],
    area1: &mut [u64],
    store: &mut [u64],
) -> Result<State, u8>
    requires standing { Standing (table_of table.now) (monitor_of state area0.old area1.old) }
    requires store_len { length store.old ≡ store_words }
    ensures { TakenBy (table_of table.now)
        (monitor_of state area0.old area1.old) e
        result area0.new area1.new }
{
    set_step::forget(store);
    take_event(table, e, state, area0, area1, store)
}
