// An event whose transition from a set met (crate met_sets) is not known: it is taken, and the set
// that it leads to is kept. The promises are in `specs/OverSets.antt`.
ghost use Rattle.std.specs.Prelude.{◌*◌, ◌≤◌, ◌<◌, ◌^◌, length};
ghost use Rattle.index.specs.Handle.{table_of};
ghost use Rattle.leaf_memo.specs.Memo.{StoreOf};
ghost use Rattle.learning.specs.OverSets.{Stays, BegunBy, LearnBy};

use index::IndexedTable;
use met_sets::{Followed, MetSets};
use picking::{pick_first, pick_up};
use state::{Declined, State};
use std::ops::ControlFlow::{self, Break, Continue};
use table::Refusal;
use taking::{Run, take_event};

// Where so wanted, forgets all sets and keeps the one that stands in the areas, at a place. It tells
// where the run is over, or the record and the set kept from which it goes on.
fn begin_again(
    sets: &mut MetSets,
    state: State,
    area0: &mut [u64],
    area1: &mut [u64],
    place: usize,
    wanted: bool,
) -> ControlFlow<Run, Followed>
    requires count_in_bounds { (state.count * 16 ≤ length area0.old)
        × (state.count * 16 ≤ length area1.old) }
    ensures { BegunBy sets.old state place area0.old area1.old
        result sets.new area0.new area1.new }
{
    if !wanted {
        return Break(Run::Left(state, place));
    }
    match pick_first(sets, state, area0, area1) {
        None => Break(Run::Left(state, place)),
        Some(set) => Continue(Followed { state, set, place }),
    }
}

// Takes the event at a place whose transition from a set is not known, where that set stands in the
// areas, and keeps the set that it leads to. Where that has no room, all sets are forgotten but that
// one if they have paid.
pub fn learn(
    table: &IndexedTable<'_>,
    sets: &mut MetSets,
    at: Followed,
    area0: &mut [u64],
    area1: &mut [u64],
    events: &[u8],
    paid: bool,
    store: &mut [u64],
) -> ControlFlow<Run, Followed>
    requires at_in_bounds { (at.place < length events.now) × (length events.now < 2 ^ 64) }
    requires stays { Stays (table_of table.now) events.now sets.old at area0.old area1.old }
    requires store_of { StoreOf (table_of table.now) store.old }
    ensures { LearnBy (table_of table.now) events.now sets.old at area0.old area1.old
        result sets.new area0.new area1.new
        × StoreOf (table_of table.now) store.new }
{
    let place = at.place;
    let e = events[place];
    match take_event(table, e, at.state, area0, area1, store) {
        Err(number) => Break(Run::Ended(Err(Declined::Stopped(
            Refusal { number, place },
            at.state,
        )))),
        Ok(state) => match pick_up(sets, state, area0, area1) {
            None => begin_again(sets, state, area0, area1, place + 1, paid),
            Some(set) => {
                sets.link(at.set, e, set);
                Continue(Followed {
                    state,
                    set,
                    place: place + 1,
                })
            }
        },
    }
}
