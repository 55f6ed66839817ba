// A set of residuals and one event: all results of all residuals, held in another area. The
// definitions are in `specs/Stepped.antt`; `specs/Claims.antt` says what they come to.
ghost use Rattle.std.specs.Prelude.{◌≡◌, ◌+◌, ◌*◌, ◌<◌, ◌≤◌, length, take, drop};
ghost use Rattle.index.specs.Handle.{table_of};
ghost use Rattle.resolving.specs.Distinct.{window};
ghost use Rattle.slots.specs.Holding.{Gave};
ghost use Rattle.leaf_memo.specs.Memo.{StoreOf};
ghost use Rattle.set_step.specs.Stepped.{Source, StepsOne, stepped_one, SteppedOne, SteppedSet};

use index::IndexedTable;
use leaf_repeats::repeats;
use leaf_results::prepare;
use slots::{Exceeded, put};
use tree_moves::{Way, rebuild, step_moves, way_of};
use tree_walk::walk;

// Copies the sixteen words from p on to the front of the store: word by word, as `slots::store` does.
fn load(src: &[u64], p: usize, store: &mut [u64])
    requires { (p + 16 ≤ length src.now) × (16 ≤ length store.old) }
    ensures { (take 16 store.new ≡ window p 16 src.now)
        × (drop 16 store.new ≡ drop 16 store.old) }
{
    for j in 0..16 {
        store[j] = src[p + j];
    }
}

// Holds all results of the i-th residual of an area in another: those of its leaves are prepared in
// the store.
fn step_many(
    table: &IndexedTable<'_>,
    bound: usize,
    e: u64,
    src: &[u64],
    i: usize,
    store: &mut [u64],
    dst: &mut [u64],
    c: usize,
) -> Result<usize, Exceeded>
    requires steps_one { StepsOne (table_of table.now) bound e src.now i store.old dst.old c }
    ensures { Gave (stepped_one (table_of table.now) e src.now i dst.old
        c) result dst.new
        × StoreOf (table_of table.now) store.new }
{
    load(src, i * 16, store);
    prepare(table, bound, e, store);
    let mut slot = [0u64; 16];
    walk(table, store, bound, e, 1, 1, &mut slot, dst, c)
}

// Holds all results of the i-th residual of an area in another: one by one as its moves say them,
// or through the store where they do not, or where results of a leaf are seen to come again.
fn step_one(
    table: &IndexedTable<'_>,
    bound: usize,
    e: u64,
    src: &[u64],
    i: usize,
    store: &mut [u64],
    dst: &mut [u64],
    c: usize,
) -> Result<usize, Exceeded>
    requires steps_one { StepsOne (table_of table.now) bound e src.now i store.old dst.old c }
    ensures { SteppedOne (table_of table.now) e src.now i dst.old c
        result dst.new
        × StoreOf (table_of table.now) store.new }
{
    let at = i * 16;
    let n = src[at] as usize;
    match way_of(table, src, at + 1, n, e) {
        Way::Still => Ok(c),
        Way::Moving(moves) => {
            if moves.lone {
                let marks = moves.each + moves.also;
                let mut s = [0u64; 16];
                rebuild(table, bound, e, src, at + 1, n, marks, &mut s);
                return put(dst, c, &s);
            }
            let each = moves.each;
            if repeats(table, bound, e, src, at + 1, n, each, store) {
                return step_many(table, bound, e, src, i, store, dst, c);
            }
            let also = moves.also;
            step_moves(
                table,
                bound,
                e,
                src,
                at + 1,
                n,
                each,
                also,
                [0u64; 16],
                dst,
                c,
            )
        }
        Way::Many => step_many(table, bound, e, src, i, store, dst, c),
    }
}

// Holds all results of the n residuals of an area in another, after event e. The store is for this
// function's own use: a call hands it on from event to event, for what it keeps of leaves.
pub fn step_set(
    table: &IndexedTable<'_>,
    e: u64,
    src: &[u64],
    n: usize,
    store: &mut [u64],
    dst: &mut [u64],
) -> Result<usize, Exceeded>
    requires source { Source (table_of table.now) e src.now n }
    requires store_of { StoreOf (table_of table.now) store.old }
    ensures { SteppedSet (table_of table.now) e src.now n dst.old
        result dst.new
        × StoreOf (table_of table.now) store.new }
{
    let bound = table.definition_count();
    let mut c = 0;
    for i in 0..n {
        c = step_one(table, bound, e, src, i, store, dst, c)?;
    }
    Ok(c)
}
