// The words of a residual's results, rebuilt node by node. The definitions are in
// `specs/Only.antt` of crate `tree_ways`.
ghost use Rattle.std.specs.Prelude.{◌≡◌, ◌%◌};
ghost use Rattle.index.specs.Handle.{table_of};
ghost use Rattle.resolving.specs.ResidualWords.{push_all};
ghost use Rattle.resolving.specs.Distinct.{window};
ghost use Rattle.tree_ways.specs.Only.{grown, rebuilt, Carries, Rebuilds};

use index::IndexedTable;
use node_word::{memory_of, remember, term_of};
use resolving::{Landed, descend, push_into, resolve_into, term_into};

// Puts the n nodes from p on after what the slot has; the marked leaves take the event. What a leaf
// comes to is mostly a leaf: it is pushed here.
pub fn rebuild(
    table: &IndexedTable<'_>,
    bound: usize,
    e: u64,
    area: &[u64],
    p: usize,
    n: usize,
    marks: u64,
    slot: &mut [u64],
)
    requires rebuilds { Rebuilds (table_of table.now) bound e area.now p n marks slot.old }
    ensures { slot.new ≡ push_all slot.old
        (rebuilt (table_of table.now) e (window p n area.now) marks) }
{
    let mut m = marks;
    for j in 0..n {
        let w = area[p + j];
        if m % 2 == 0 {
            push_into(slot, w);
            m /= 2;
            continue;
        }
        let t = term_of(w) + 1;
        let x = remember(e, memory_of(w));
        match descend(table, bound, t, x, 0, slot) {
            Landed::Nothing => {
                return;
            }
            Landed::Leaf(y) => push_into(slot, y),
            Landed::Pair {
                bound: b,
                term,
                memory,
                index,
            } => term_into(table, b, term, memory, index, slot),
        }
        m /= 2;
    }
}

// Puts a node after what the slot has; where the marks' lowest bit is set, what the leaf comes to.
pub fn carry(table: &IndexedTable<'_>, bound: usize, e: u64, w: u64, marks: u64, slot: &mut [u64])
    requires carries { Carries (table_of table.now) bound e w marks slot.old }
    ensures { slot.new
        ≡ push_all slot.old (grown (table_of table.now) e w (marks % 2)) }
{
    if marks % 2 == 0 {
        push_into(slot, w);
        return;
    }
    let m = remember(e, memory_of(w));
    resolve_into(table, bound, term_of(w) + 1, m, 0, slot);
}
