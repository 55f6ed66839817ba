// Offer: the events that may come next, a bit for each (document 01, "Operations": "bit e is set
// exactly when the residuals after e, crowded or not, are not empty"; document 02, W6: "Offer gives
// two words, events 0 to 63 in the first"). The definitions are in `specs/Offer.antt` of crate
// monitor_spec.
ghost use Rattle.std.specs.Prelude.{◌≡◌, true, ◌+◌, ◌≤◌, ◌<◌};
ghost use Rattle.index.specs.Handle.{table_of};
ghost use Rattle.residuals.specs.Residual.{after_all};
ghost use Rattle.monitor_spec.specs.State.{areas_measured};
ghost use Rattle.monitor_spec.specs.Consistent.{consistent};
ghost use Rattle.monitor_spec.specs.Offer.{bit_of, bits_from, word_bits, word_from, all_bits};
ghost use Rattle.monitor_spec.specs.Offer.{offer_bits, offer_of};
ghost use Rattle.state.specs.Record.{verdict_of, monitor_of};
ghost use Rattle.state.specs.Answers.{bits_of, offer_outcome};
ghost use Rattle.monitor_spec.specs.Holds.{AreaHolds, held_in};

use entering::enter_on;
use index::IndexedTable;
use state::{EventBits, State, Verdict, clear_all};
use table::Refusal;

// The events that one word has bits for.
const WORD_BITS: u64 = 64;

// 1 where some of the residuals held may take event e, else 0.
fn bit(table: &IndexedTable<'_>, area: &[u64], count: usize, e: u64) -> u64
    requires area_holds { AreaHolds (table_of table.now) area.now count }
    requires e_bound { e < (table_of table.now).alphabet }
    ensures { result ≡ bit_of 0 (after_all (table_of table.now) e
        (held_in (table_of table.now) area.now count)) }
{
    for i in 0..count {
        let tree = set_step::takes_at(table, area, i * 16 + 1, e);
        if tree.moves {
            return 1;
        }
    }
    0
}

// The bits of the n events from b on, the last event's bit first.
fn bits(table: &IndexedTable<'_>, area: &[u64], count: usize, b: u64, n: u64) -> u64
    requires area_holds { AreaHolds (table_of table.now) area.now count }
    requires n_le_word_bits { (n ≤ word_bits) × (b + n ≤ (table_of table.now).alphabet) }
    ensures { result ≡ bits_from (table_of table.now)
        (held_in (table_of table.now) area.now count) b n }
{
    let mut bits = 0;
    // Kept as it is: it goes down, from the last event to the first.
    let mut i = n;
    while 0 < i {
        i -= 1;
        bits = bits * 2 + bit(table, area, count, b + i);
    }
    bits
}

// The word of the events from b on: 0 where there are none.
fn word(table: &IndexedTable<'_>, area: &[u64], count: usize, b: u64) -> u64
    requires area_holds { AreaHolds (table_of table.now) area.now count }
    ensures { result ≡ word_from (table_of table.now)
        (held_in (table_of table.now) area.now count) b }
{
    let alphabet = table.alphabet();
    if alphabet <= b {
        return 0;
    }
    let n = alphabet - b;
    if n < WORD_BITS {
        return bits(table, area, count, b, n);
    }
    bits(table, area, count, b, WORD_BITS)
}

// Both words.
fn words(table: &IndexedTable<'_>, area: &[u64], count: usize) -> EventBits
    requires area_holds { AreaHolds (table_of table.now) area.now count }
    ensures { bits_of result ≡ all_bits (table_of table.now)
        (held_in (table_of table.now) area.now count) }
{
    let first = word(table, area, count, 0);
    let second = word(table, area, count, WORD_BITS);
    EventBits { first, second }
}

// The bits of the residuals held, which are in the area that the parity of the events taken says; 0
// after failure. The table's index stands in the work area: no judging, and the areas agree.
pub fn offered(table: &IndexedTable<'_>, state: State, area0: &[u64], area1: &[u64]) -> EventBits
    requires area1_value { areas_measured area0.now area1.now ≡ true }
    requires area1_value_2 { consistent (table_of table.now)
        (monitor_of state area0.now area1.now) ≡ true }
    ensures { bits_of result ≡ offer_bits (table_of table.now)
        (monitor_of state area0.now area1.now) (verdict_of state.verdict) }
{
    let verdict = state.verdict;
    if let Verdict::Failed(_) = verdict {
        return EventBits {
            first: 0,
            second: 0,
        };
    }
    let count = state.count as usize;
    if state.taken % 2 == 0 {
        return words(table, area0, count);
    }
    words(table, area1, count)
}

// The events that may come next, a bit for each, in two words; 0 after failure. The areas are kept;
// the work area is all zero afterwards, but kept where a length is wrong.
pub fn offer(
    list: &[u16],
    state: State,
    area0: &[u64],
    area1: &[u64],
    work: &mut [u64],
) -> Result<EventBits, Refusal>
    ensures { offer_outcome result area0.now area1.now work.new
        ≡ offer_of list.now (monitor_of state area0.now area1.now)
        work.old }
{
    match enter_on(list, state, area0, area1, work) {
        Ok(()) => {
            let table = IndexedTable { list, work };
            let bits = offered(&table, state, area0, area1);
            clear_all(work);
            Ok(bits)
        }
        Err(refusal) => Err(refusal),
    }
}
