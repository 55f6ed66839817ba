// Resolving, where the choices and calls on the way to a residual are gone through in a loop: one
// that is a leaf is found without a call of `term_into`. The definitions are in
// `specs/ResidualWords.antt`.
ghost use Rattle.std.specs.Prelude.{◌≡◌, ◌<◌};
ghost use Rattle.index.specs.Handle.{table_of};
ghost use Rattle.node_word.specs.Word.{memory_bound, memory_of};
ghost use Rattle.resolving.specs.ResidualWords.{Resolves, resolved_into, Lands};

use crate::resolve::{push_into, term_into};
use crate::words::node_at;
use index::IndexedTable;

// Where the way to a residual comes to: a leaf, by its node word; a parallel, and which of its
// residuals it is; or nothing, which FAIL has.
#[derive(Drop)]
pub enum Landed {
    Nothing,
    Leaf(u64),
    Pair {
        bound: usize,
        term: usize,
        memory: u64,
        index: u64,
    },
}

// The way to the i-th residual of term n with the memory of m, through choices and calls. The slot,
// which is not read, names in the contract what the residual is to follow.
pub fn descend(
    table: &IndexedTable<'_>,
    bound: usize,
    n: usize,
    m: u64,
    i: u64,
    slot: &[u64],
) -> Landed
    requires resolves { Resolves (table_of table.now) bound n (memory_of m) i slot.now }
    requires m_lt_memory_bound { m < memory_bound }
    ensures { Lands (table_of table.now) n (memory_of m) i slot.now result }
{
    let mut at = n;
    let mut memory = m;
    let mut j = i;
    let mut b = bound;
    // no index: a walk down choices and calls; 01 names the match over kind numbers, with a range arm
    loop {
        match table.kind(at) {
            0 | 2 => {
                return Landed::Leaf(node_at(table, at, memory));
            }
            1 => {
                return Landed::Nothing;
            }
            3 => {
                let c = table.branches(at + 1);
                if j < c {
                    at += 1;
                    continue;
                }
                at = table.right(at);
                j -= c;
            }
            4 => {
                return Landed::Pair {
                    bound: b,
                    term: at,
                    memory,
                    index: j,
                };
            }
            5 => {
                b = table.called(at);
                at = table.body(b);
                memory = 0;
            }
            6..=18446744073709551615 => {
                return Landed::Nothing;
            }
        }
    }
}

// Puts the i-th residual of term n with the memory of m after what the slot has; as `term_into`.
pub fn resolve_into(
    table: &IndexedTable<'_>,
    bound: usize,
    n: usize,
    m: u64,
    i: u64,
    slot: &mut [u64],
)
    requires resolves { Resolves (table_of table.now) bound n (memory_of m) i slot.old }
    requires m_lt_memory_bound { m < memory_bound }
    ensures { slot.new
        ≡ resolved_into (table_of table.now) n (memory_of m) i slot.old }
{
    match descend(table, bound, n, m, i, slot) {
        Landed::Nothing => {}
        Landed::Leaf(w) => push_into(slot, w),
        Landed::Pair {
            bound: b,
            term,
            memory,
            index,
        } => term_into(table, b, term, memory, index, slot),
    }
}

// The i-th residual of term n with the memory of m, after what the slot has.
pub fn resolve_at(
    table: &IndexedTable<'_>,
    bound: usize,
    n: usize,
    m: u64,
    i: u64,
    slot: [u64; 16],
) -> [u64; 16]
    requires resolves { Resolves (table_of table.now) bound n (memory_of m) i slot }
    requires m_lt_memory_bound { m < memory_bound }
    ensures { result ≡ resolved_into (table_of table.now) n (memory_of m) i slot }
{
    let mut s = slot;
    resolve_into(table, bound, n, m, i, &mut s);
    s
}
