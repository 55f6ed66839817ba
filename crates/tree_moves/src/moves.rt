// The results that moves say of a residual, held one after the other. The definitions are in
// `specs/Moving.antt`.
ghost use Rattle.std.specs.Prelude.{◌≡◌};
ghost use Rattle.index.specs.Handle.{table_of};
ghost use Rattle.slots.specs.Holding.{Gave};
ghost use Rattle.tree_moves.specs.Moving.{StepsLeaf, stepped_leaf, StepsMoves, stepped_moves};

use crate::rebuilding::{carry, rebuild};
use index::IndexedTable;
use node_word::{memory_of, remember, term_of};
use resolving::{pop_to, resolve_into};
use slots::{Exceeded, put};

// Holds a slot followed by each residual that the leaf at p comes to and by the nodes after it, of
// which the marked leaves have taken the event. There are n nodes from p on. The slot is left as it
// was.
fn step_leaf(
    table: &IndexedTable<'_>,
    bound: usize,
    e: u64,
    src: &[u64],
    p: usize,
    n: usize,
    also: u64,
    slot: &mut [u64],
    dst: &mut [u64],
    count: usize,
) -> Result<usize, Exceeded>
    requires steps_leaf { StepsLeaf (table_of table.now) bound e src.now p n also slot.old dst.old
        count }
    ensures { Gave (stepped_leaf (table_of table.now) e src.now p n also
        slot.old dst.old count) result dst.new
        × (slot.new ≡ slot.old) }
{
    let w = src[p];
    let t = term_of(w) + 1;
    let m = remember(e, memory_of(w));
    let b = table.branches(t);
    let before = slot[0];
    let mut c = count;
    for i in 0..b {
        resolve_into(table, bound, t, m, i, slot);
        rebuild(table, bound, e, src, p + 1, n - 1, also / 2, slot);
        let held = put(dst, c, slot);
        pop_to(slot, before);
        c = held?;
    }
    Ok(c)
}

// Holds a slot followed by each result that moves say of the n nodes from p on: leaf after leaf,
// the nodes before it pushed on the slot; a leaf that has been stepped is a node like the others.
pub fn step_moves(
    table: &IndexedTable<'_>,
    bound: usize,
    e: u64,
    src: &[u64],
    p: usize,
    n: usize,
    each: u64,
    also: u64,
    slot: [u64; 16],
    dst: &mut [u64],
    count: usize,
) -> Result<usize, Exceeded>
    requires steps_moves { StepsMoves (table_of table.now) bound e src.now p n each also slot dst.old
        count }
    ensures { Gave (stepped_moves (table_of table.now) e src.now p n each also slot
        dst.old count) result dst.new }
{
    let mut at = p;
    let mut left = n;
    let mut x = each;
    let mut u = also;
    let mut s = slot;
    let mut c = count;
    // no index: it stays at a leaf for its turn, and ends with the last mark
    while 0 < x {
        if x % 2 == 1 {
            c = step_leaf(table, bound, e, src, at, left, u, &mut s, dst, c)?;
            x -= 1;
            continue;
        }
        carry(table, bound, e, src[at], u, &mut s);
        at += 1;
        left -= 1;
        x /= 2;
        u /= 2;
    }
    Ok(c)
}
