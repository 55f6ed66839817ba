// Whether state and area agree (document 01, "Disturbed"; refusal 10). The definitions are in
// `specs/Consistent.antt` of crate monitor_spec.
ghost use Rattle.std.specs.Prelude.{◌≡◌, ◌*◌, ◌≤◌, ◌&&◌, length};
ghost use Rattle.index.specs.Handle.{table_of};
ghost use Rattle.monitor_spec.specs.State.{chunks};
ghost use Rattle.monitor_spec.specs.Valid.{valid_slot};
ghost use Rattle.monitor_spec.specs.Consistent.{every, ascends, all_zero, verdict_fits};
ghost use Rattle.monitor_spec.specs.Consistent.{record_fits, area_fits};
ghost use Rattle.monitor_spec.specs.Consistent.{consistent as agrees};
ghost use Rattle.state.specs.Record.{verdict_of, state_of, monitor_of};

use crate::record::{State, Verdict};
use index::IndexedTable;
use valid_slots::{all_zero, below, slot_fits};

// Whether the first slots of an area are valid.
fn slots_fit(table: &IndexedTable<'_>, area: &[u64], count: usize) -> bool
    requires count_in_bounds { count * 16 ≤ length area.now }
    ensures { result ≡ every (valid_slot (table_of table.now)) (chunks count area.now) }
{
    for i in 0..count {
        let p = i * 16;
        if !slot_fits(table, &area[p..p + 16]) {
            return false;
        }
    }
    true
}

// Whether they ascend.
fn slots_ascend(area: &[u64], count: usize) -> bool
    requires { count * 16 ≤ length area.now }
    ensures { result ≡ ascends (chunks count area.now) }
{
    for i in 1..count {
        let p = i * 16;
        if !below(&area[p - 16..p], &area[p..p + 16]) {
            return false;
        }
    }
    true
}

// Whether an area is so many ascending valid slots and then zeros.
fn area_fits(table: &IndexedTable<'_>, area: &[u64], count: usize) -> bool
    requires count_in_bounds { count * 16 ≤ length area.now }
    ensures { result ≡ area_fits (table_of table.now) count area.now }
{
    slots_fit(table, area, count) && slots_ascend(area, count) && all_zero(area, count * 16)
}

// Whether the present area is that, and the other zero.
fn areas_fit(table: &IndexedTable<'_>, present: &[u64], other: &[u64], count: usize) -> bool
    requires count_in_bounds { count * 16 ≤ length present.now }
    ensures { result ≡ (area_fits (table_of table.now) count present.now
        && all_zero other.now) }
{
    area_fits(table, present, count) && all_zero(other, 0)
}

// Whether the verdict agrees with the events taken and the residuals held.
fn verdict_fits(state: State, slots: u64) -> bool
    ensures { result ≡ verdict_fits (verdict_of state.verdict) state.taken state.count slots }
{
    match state.verdict {
        Verdict::Running => 0 < state.count && state.count <= slots,
        Verdict::Failed(place) => place <= state.taken && state.count == 0,
    }
}

// Whether the record can be one of a monitor with so many slots.
fn record_fits(state: State, slots: u64) -> bool
    ensures { result ≡ record_fits (state_of state) slots }
{
    if !verdict_fits(state, slots) {
        return false;
    }
    state.count <= state.peak && state.peak <= slots
}

// Whether state and areas agree: refusal 10 is not met.
pub fn consistent(table: &IndexedTable<'_>, state: State, area0: &[u64], area1: &[u64]) -> bool
    requires area0_len { length area0.now ≡ length area1.now }
    ensures { result ≡ agrees (table_of table.now)
        (monitor_of state area0.now area1.now) }
{
    let slots = (area0.len() / 16) as u64;
    if !record_fits(state, slots) {
        return false;
    }
    let count = state.count as usize;
    // The parity is tested where it is used: each place picks other things by it (`&`, `&mut`, a pointer).
    if state.taken % 2 == 0 {
        areas_fit(table, area0, area1, count)
    } else {
        areas_fit(table, area1, area0, count)
    }
}
