// Between the areas and the sets kept.
ghost use Rattle.std.specs.Prelude.{suc, ◌+◌, ◌*◌, ◌≤◌, ◌<◌, length, get_or};
ghost use Rattle.state.specs.Record.{monitor_of};
ghost use Rattle.met_sets.specs.Sets.{count_at, SetStands};
ghost use Rattle.met_sets.specs.Value.{forgotten, Keeps};
ghost use Rattle.met_sets.specs.Runs.{FoundBy, PickedBy, LaidIn, LaidBy};

use met_sets::{MetSets, SLOT_WORDS, count_of};
use state::{State, clear_first};

// Keeps the first slots of an area, so many, as one set more; no transition of it is known.
fn keep(sets: &mut MetSets, area: &[u64], count: usize)
    requires k_bound { (sets.old.count < 63) × (get_or sets.old.starts sets.old.count 0 + count ≤ 104)
        × (suc sets.old.count * sets.old.alphabet ≤ 2560) }
    requires count_in_bounds { count * 16 ≤ length area.now }
    ensures { Keeps sets.old area.now count sets.new }
{
    let k = sets.count;
    let start = sets.starts[k];
    let from = start * SLOT_WORDS;
    let words = count * SLOT_WORDS;
    let row = k * sets.alphabet;
    let row_end = row + sets.alphabet;
    sets.sets[from..from + words].copy_from_slice(&area[..words]);
    sets.starts[k + 1] = start + count;
    sets.next[row..row_end].fill(0);
    sets.count = k + 1;
}

// Finds the set that the first slots of an area are, so many, or keeps it; then the area is zero.
// Where there is no room, all is as it was.
fn pick_area(sets: &mut MetSets, area: &mut [u64], count: usize) -> Option<usize>
    requires count_in_bounds { count * 16 ≤ length area.old }
    ensures { FoundBy sets.old area.old count result sets.new area.new }
{
    let words = count * SLOT_WORDS;
    if let Some(i) = sets.find(area, count) {
        clear_first(area, words);
        return Some(i);
    }
    if !sets.has_room(count) {
        return None;
    }
    let k = sets.count;
    keep(sets, area, count);
    clear_first(area, words);
    Some(k)
}

// The same of the present area, which the parity of the events taken says; then both areas are
// zero.
pub fn pick_up(
    sets: &mut MetSets,
    state: State,
    area0: &mut [u64],
    area1: &mut [u64],
) -> Option<usize>
    requires count_in_bounds { (state.count * 16 ≤ length area0.old)
        × (state.count * 16 ≤ length area1.old) }
    ensures { PickedBy sets.old (monitor_of state area0.old area1.old)
        result sets.new area0.new area1.new }
{
    let count = state.count as usize;
    if state.taken % 2 == 0 {
        return pick_area(sets, area0, count);
    }
    pick_area(sets, area1, count)
}

// The same where all sets kept are forgotten first.
pub fn pick_first(
    sets: &mut MetSets,
    state: State,
    area0: &mut [u64],
    area1: &mut [u64],
) -> Option<usize>
    requires count_in_bounds { (state.count * 16 ≤ length area0.old)
        × (state.count * 16 ≤ length area1.old) }
    ensures { PickedBy (forgotten sets.old) (monitor_of state area0.old area1.old)
        result sets.new area0.new area1.new }
{
    sets.forget();
    pick_up(sets, state, area0, area1)
}

// Lays set n into an area of zeros, so many slots.
fn lay(sets: &[u64], starts: &[usize], n: usize, area: &mut [u64])
    requires set_stands { SetStands sets.now starts.now n }
    requires n_in_bounds { count_at starts.now n * 16 ≤ length area.old }
    ensures { LaidIn sets.now starts.now n area.old area.new }
{
    let words = count_of(starts, n) * SLOT_WORDS;
    let from = starts[n] * SLOT_WORDS;
    area[..words].copy_from_slice(&sets[from..from + words]);
}

// Lays set n into the present area, which the parity of the events taken says, of two that are
// zero.
pub fn lay_out(
    sets: &[u64],
    starts: &[usize],
    n: usize,
    state: State,
    area0: &mut [u64],
    area1: &mut [u64],
)
    requires set_stands { SetStands sets.now starts.now n }
    requires n_in_bounds { (count_at starts.now n * 16 ≤ length area0.old)
        × (count_at starts.now n * 16 ≤ length area1.old) }
    ensures { LaidBy sets.now starts.now state n area0.old area1.old area0.new area1.new }
{
    if state.taken % 2 == 0 {
        lay(sets, starts, n, area0);
    } else {
        lay(sets, starts, n, area1);
    }
}

// The same of the sets met.
pub fn lay_set(sets: &MetSets, n: usize, state: State, area0: &mut [u64], area1: &mut [u64])
    requires set_stands { SetStands sets.now.sets sets.now.starts n }
    requires n_in_bounds { (count_at sets.now.starts n * 16 ≤ length area0.old)
        × (count_at sets.now.starts n * 16 ≤ length area1.old) }
    ensures { LaidBy sets.now.sets sets.now.starts state n area0.old area1.old area0.new area1.new }
{
    lay_out(&sets.sets, &sets.starts, n, state, area0, area1);
}
