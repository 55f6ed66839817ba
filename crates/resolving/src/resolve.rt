// Resolving (01, "Residuals": settling): the nodes of the i-th residual of a term, written into a
// slot. The two functions that call each other hand the slot on by reference and go through choices
// in a loop: only a call and the left side of a parallel take stack. The definitions are in
// `specs/ResidualWords.antt`.
ghost use Rattle.std.specs.Prelude.{◌≡◌, ◌-◌, ◌<◌, length, get_or};
ghost use Rattle.index.specs.Handle.{table_of};
ghost use Rattle.node_word.specs.Word.{memory_bound, memory_of};
ghost use Rattle.resolving.specs.ResidualWords.{pushed, pop_all, Resolves, resolved_into};
ghost use Rattle.resolving.specs.ResidualWords.{ResolvesDefinition, definition_into};

use crate::words::node_at;
use index::IndexedTable;

// Puts one word more into a slot.
pub fn push_into(slot: &mut [u64], w: u64)
    requires { (get_or slot.old 0 0 < 15) × (length slot.old ≡ 16) }
    ensures { slot.new ≡ pushed slot.old w }
{
    let n = slot[0];
    let at = n as usize + 1;
    slot[at] = w;
    slot[0] = n + 1;
}

// Puts the i-th residual of term n with the memory of m after what the slot has. The calls of the
// term with no prefix around them name definitions below `bound`, which serves the proof that this
// ends.
#[cycle(definition_into_term_into)]
pub fn term_into(table: &IndexedTable<'_>, bound: usize, n: usize, m: u64, i: u64, slot: &mut [u64])
    requires resolves { Resolves (table_of table.now) bound n (memory_of m) i slot.old }
    requires m_lt_memory_bound { m < memory_bound }
    ensures { slot.new
        ≡ resolved_into (table_of table.now) n (memory_of m) i slot.old }
{
    let mut at = n;
    let mut j = i;
    // no index: a walk down choices; 01 names the match over kind numbers, with a range arm
    loop {
        match table.kind(at) {
            0 | 2 => {
                push_into(slot, node_at(table, at, m));
                return;
            }
            1 => {
                return;
            }
            3 => {
                let c = table.branches(at + 1);
                if j < c {
                    at += 1;
                    continue;
                }
                at = table.right(at);
                j -= c;
            }
            4 => {
                let r = table.right(at);
                let c = table.branches(r);
                push_into(slot, node_at(table, at, m));
                let left = j / c;
                j %= c;
                term_into(table, bound, at + 1, m, left, slot);
                at = r;
            }
            5 => {
                definition_into(table, table.called(at), j, slot);
                return;
            }
            6..=18446744073709551615 => {
                return;
            }
        }
    }
}

// Puts the i-th residual of the body of definition d after what the slot has.
#[cycle(definition_into_term_into)]
fn definition_into(table: &IndexedTable<'_>, d: usize, i: u64, slot: &mut [u64])
    requires resolves_definition { ResolvesDefinition (table_of table.now) d i slot.old }
    ensures { slot.new
        ≡ definition_into (table_of table.now) d i slot.old }
{
    term_into(table, d, table.body(d), 0, i, slot);
}

// Takes words off a slot until it has n of them, the last first.
pub fn pop_to(slot: &mut [u64], n: u64)
    requires { (get_or slot.old 0 0 < 16) × (length slot.old ≡ 16) }
    ensures { slot.new
        ≡ pop_all slot.old (get_or slot.old 0 0 - n) }
{
    let mut c = slot[0];
    // the last first, so that slot[0] counts what is left at each turn, as pop_all says
    while n < c {
        slot[c as usize] = 0;
        c -= 1;
        slot[0] = c;
    }
}

// The i-th residual of the body of definition d, after what the slot has.
pub fn resolve_definition(table: &IndexedTable<'_>, d: usize, i: u64, slot: [u64; 16]) -> [u64; 16]
    requires resolves_definition { ResolvesDefinition (table_of table.now) d i slot }
    ensures { result ≡ definition_into (table_of table.now) d i slot }
{
    let mut s = slot;
    definition_into(table, d, i, &mut s);
    s
}
