// A fresh start with its first event (document 02, W5: "the monitor starts afresh, taken 0, on the
// drawing now in force"). The residuals of the last definition are settled in a room of the
// function's own, so that a refused event leaves both areas as they were. The promises are in
// `specs/Fresh.antt`.
ghost use Rattle.std.specs.Prelude.{◌≡◌, true, length};
ghost use Rattle.tree_walk.specs.Layout.{store_words};
ghost use Rattle.table_index.specs.Index.{table_in, Indexed};
ghost use Rattle.index.specs.Handle.{table_of};
ghost use Rattle.monitor_spec.specs.State.{areas_measured, slot_count};
ghost use Rattle.feeding.specs.Feeding.{Empty};
ghost use Rattle.wash_start.specs.Fresh.{ListAccepted, FirstBy, AfreshBy, Free, FreshBy};

use entering::enter;
use feeding::take_anew;
use index::IndexedTable;
use opening::resolve_last;
use set_step::Exceeded;
use state::{State, clear_all};
use trying::copy_words;

// Makes the index of a table, which was judged before, stand in the work area.
pub fn stand(list: &[u16], work: &mut [u64])
    requires { ListAccepted list.now × (length work.old ≡ 8192) }
    ensures { Indexed list.now work.new }
{
    let _judged = enter(list, true, work);
}

// Settles the last definition in a room as long as the other area, as Open does, and takes event e
// from there: what is left is held in the other area. Where the event is refused, or the residuals
// do not fit the slots, the other area is zero.
fn take_settled(
    table: &IndexedTable<'_>,
    e: u8,
    room: &mut [u64],
    other: &mut [u64],
    store: &mut [u64],
) -> Result<State, u8>
    requires other_value { areas_measured room.old other.old ≡ true }
    requires store_len { length store.old ≡ store_words }
    ensures { FirstBy (table_of table.now) (slot_count other.old) e
        result other.new }
{
    match resolve_last(table, room, other) {
        Ok(count) => {
            let fresh = State::fresh(count as u64);
            take_anew(table, e, fresh, room, other, store)
        }
        Err(Exceeded) => Err(13),
    }
}

// The same, in a room of this function's own.
fn take_first(
    table: &IndexedTable<'_>,
    e: u8,
    other: &mut [u64],
    store: &mut [u64],
) -> Result<State, u8>
    requires other_value { areas_measured other.old other.old ≡ true }
    requires store_len { length store.old ≡ store_words }
    ensures { FirstBy (table_of table.now) (slot_count other.old) e
        result other.new }
{
    let mut room = [0u64; 4096];
    let n = other.len();
    take_settled(table, e, &mut room[0..n], other, store)
}

// Where area 1 is zero: it is filled, and area 0 is zeroed.
fn start_in_other(
    table: &IndexedTable<'_>,
    e: u8,
    area0: &mut [u64],
    area1: &mut [u64],
    store: &mut [u64],
) -> Result<State, u8>
    requires area1_value { (areas_measured area0.old area1.old ≡ true) × Empty area1.old }
    requires store_len { length store.old ≡ store_words }
    ensures { AfreshBy (table_of table.now) e area0.old area1.old
        result area0.new area1.new }
{
    match take_first(table, e, area1, store) {
        Ok(state) => {
            clear_all(area0);
            Ok(state)
        }
        Err(number) => Err(number),
    }
}

// Where area 0 is zero: it is filled, what it holds goes over to area 1, and it is zeroed.
fn start_in_first(
    table: &IndexedTable<'_>,
    e: u8,
    area0: &mut [u64],
    area1: &mut [u64],
    store: &mut [u64],
) -> Result<State, u8>
    requires area1_value { (areas_measured area0.old area1.old ≡ true) × Empty area0.old }
    requires store_len { length store.old ≡ store_words }
    ensures { AfreshBy (table_of table.now) e area0.old area1.old
        result area0.new area1.new }
{
    match take_first(table, e, area0, store) {
        Ok(state) => {
            copy_words(area0, area1);
            clear_all(area0);
            Ok(state)
        }
        Err(number) => Err(number),
    }
}

// Starts afresh with event e on a table, whose index stands afterwards; `even` says that area 1 is
// zero, and otherwise area 0 is.
pub fn take_fresh(
    list: &[u16],
    work: &mut [u64],
    e: u8,
    even: bool,
    area0: &mut [u64],
    area1: &mut [u64],
    store: &mut [u64],
) -> Result<State, u8>
    requires list_accepted { ListAccepted list.now × (length work.old ≡ 8192) }
    requires area1_value { areas_measured area0.old area1.old ≡ true }
    requires free { Free even area0.old area1.old }
    requires store_len { length store.old ≡ store_words }
    ensures { FreshBy list.now e area0.old area1.old
        result area0.new area1.new work.new }
{
    stand(list, work);
    let table = IndexedTable { list, work };
    if even {
        return start_in_other(&table, e, area0, area1, store);
    }
    start_in_first(&table, e, area0, area1, store)
}
