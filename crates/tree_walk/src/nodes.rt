// One residual and one event: every result, held in an area. The nodes are gone through once, in
// reading order; for each tree a mode says whether it takes the event or is kept. The definitions
// are in `specs/Walk.antt`, `specs/Forest.antt` and `specs/Course.antt`.
ghost use Rattle.std.specs.Prelude.{◌≡◌, ◌+◌, ◌*◌, ◌<◌, ◌≤◌, get_or, eqb};
ghost use Rattle.index.specs.Handle.{table_of};
ghost use Rattle.table.specs.Table.{term_count};
ghost use Rattle.node_word.specs.Word.{term_of_word};
ghost use Rattle.resolving.specs.Words.{kind_at};
ghost use Rattle.resolving.specs.ResidualWords.{pushed, Clean};
ghost use Rattle.slots.specs.Holding.{Gave};
ghost use Rattle.tree_walk.specs.Course.{node_count, Ready, Place, walked};

use index::IndexedTable;
use node_word::{memory_of, remember, term_of};
use resolving::{holds_at, kind_at, pop_to, push_into, resolve_into};
use slots::{Exceeded, put};

// Whether a node is a pair, by the kind of its term. A residual's other nodes are STOP and
// prefixes.
pub fn is_pair(table: &IndexedTable<'_>, w: u64) -> bool
    requires w_bound { term_of_word w < term_count (table_of table.now) }
    ensures { result ≡ eqb (kind_at (table_of table.now) w) 4 }
{
    // 01 names this form: a match over kind numbers, with a range arm
    match kind_at(table, w) {
        4 => true,
        0 | 2 | 5 => false,
        3 => false,
        1 => false,
        6..=18446744073709551615 => false,
    }
}

// All ways to go on from node k: the lowest bit of `modes` says whether that node's tree takes the
// event (1) or is kept (0), the others say it of the trees after it. Each whole result is held in
// `area`. The slot has what stands before node k; each function leaves it as it was.
#[cycle(walk_walk_kept_walk_leaf_walk_pair)]
pub fn walk(
    table: &IndexedTable<'_>,
    store: &[u64],
    bound: usize,
    e: u64,
    k: usize,
    modes: u64,
    slot: &mut [u64],
    area: &mut [u64],
    count: usize,
) -> Result<usize, Exceeded>
    requires ready { Ready (table_of table.now) bound e store.now }
    requires place { Place (table_of table.now) e store.now k modes slot.old area.old
        count }
    ensures { Gave (walked (table_of table.now) e store.now k modes
        slot.old area.old count) result area.new
        × (slot.new ≡ slot.old) }
{
    let n = store[0] as usize;
    if n < k {
        return put(area, count, slot);
    }
    let w = store[k];
    let rest = modes / 2;
    let pair = is_pair(table, w);
    if modes % 2 == 0 {
        if pair {
            return walk_kept(table, store, bound, e, k, rest * 4, slot, area, count);
        }
        return walk_kept(table, store, bound, e, k, rest, slot, area, count);
    }
    if pair {
        return walk_pair(table, store, bound, e, k, rest, slot, area, count);
    }
    walk_leaf(table, store, bound, e, k, rest, slot, area, count)
}

// The ways to go on after node k, which stands in each result.
#[cycle(walk_walk_kept_walk_leaf_walk_pair)]
fn walk_kept(
    table: &IndexedTable<'_>,
    store: &[u64],
    bound: usize,
    e: u64,
    k: usize,
    modes: u64,
    slot: &mut [u64],
    area: &mut [u64],
    count: usize,
) -> Result<usize, Exceeded>
    requires ready { Ready (table_of table.now) bound e store.now }
    requires clean { Clean slot.old
        × Place (table_of table.now) e store.now (k + 1) modes
        (pushed slot.old (get_or store.now k 0)) area.old count }
    ensures { Gave (walked (table_of table.now) e store.now (k + 1) modes
        (pushed slot.old (get_or store.now k 0)) area.old count)
        result area.new
        × (slot.new ≡ slot.old) }
{
    let words = slot[0];
    push_into(slot, store[k]);
    let held = walk(table, store, bound, e, k + 1, modes, slot, area, count);
    pop_to(slot, words);
    held
}

// A pair that is to take the event; its number in the store says whether it can.
#[cycle(walk_walk_kept_walk_leaf_walk_pair)]
fn walk_pair(
    table: &IndexedTable<'_>,
    store: &[u64],
    bound: usize,
    e: u64,
    k: usize,
    rest: u64,
    slot: &mut [u64],
    area: &mut [u64],
    count: usize,
) -> Result<usize, Exceeded>
    requires ready { Ready (table_of table.now) bound e store.now }
    requires place { Place (table_of table.now) e store.now k (rest * 2 + 1) slot.old
        area.old count
        × (k ≤ node_count store.now) × (kind_at (table_of table.now) (get_or store.now k 0) ≡ 4) }
    ensures { Gave (walked (table_of table.now) e store.now k (rest * 2 + 1)
        slot.old area.old count) result area.new
        × (slot.new ≡ slot.old) }
{
    if store[k * 257] == 0 {
        return Ok(count);
    }
    let w = store[k];
    let kept = rest * 4;
    if holds_at(table, w, e) {
        return walk_kept(table, store, bound, e, k, kept + 3, slot, area, count);
    }
    let c = walk_kept(table, store, bound, e, k, kept + 1, slot, area, count)?;
    walk_kept(table, store, bound, e, k, kept + 2, slot, area, c)
}

// A leaf that takes the event.
#[cycle(walk_walk_kept_walk_leaf_walk_pair)]
fn walk_leaf(
    table: &IndexedTable<'_>,
    store: &[u64],
    bound: usize,
    e: u64,
    k: usize,
    rest: u64,
    slot: &mut [u64],
    area: &mut [u64],
    count: usize,
) -> Result<usize, Exceeded>
    requires ready { Ready (table_of table.now) bound e store.now }
    requires place { Place (table_of table.now) e store.now k (rest * 2 + 1) slot.old
        area.old count
        × (k ≤ node_count store.now)
        × (kind_at (table_of table.now) (get_or store.now k 0) ≡ 4 → ⊥) }
    ensures { Gave (walked (table_of table.now) e store.now k (rest * 2 + 1)
        slot.old area.old count) result area.new
        × (slot.new ≡ slot.old) }
{
    let w = store[k];
    let f = store[k * 257];
    let t = term_of(w);
    let m = remember(e, memory_of(w));
    let before = slot[0];
    let mut c = count;
    for j in 0..f {
        let i = store[k * 257 + 1 + j as usize];
        resolve_into(table, bound, t + 1, m, i, slot);
        let held = walk(table, store, bound, e, k + 1, rest, slot, area, c);
        pop_to(slot, before);
        c = held?;
    }
    Ok(c)
}
