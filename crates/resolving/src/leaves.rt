// A leaf's distinct results: the indices of the residuals of a term that did not occur before.
// A result is compared with those kept by its key first. The definitions are in
// `specs/Distinct.antt`.
ghost use Rattle.std.specs.Prelude.{◌≡◌, ◌%◌, ◌+◌, ◌*◌, ◌<◌, ◌≤◌, length};
ghost use Rattle.index.specs.Handle.{table_of};
ghost use Rattle.node_word.specs.Word.{memory_bound, memory_of};
ghost use Rattle.residuals.specs.Residual.{resolve};
ghost use Rattle.resolving.specs.Distinct.{same_words, window, key_from, is_kept, kept};
ghost use Rattle.resolving.specs.Distinct.{slot_at, Resolvable, Known, held_slots, Stored};

use crate::descent::resolve_at;
use index::IndexedTable;
use slots::store;

// Whether a slot's words stand in a list from p on.
fn same_at(words: &[u64], p: usize, slot: &[u64]) -> bool
    requires { (p + 16 ≤ length words.now) × (length slot.now ≡ 16) }
    ensures { result ≡ same_words slot.now (window p 16 words.now) }
{
    slot == &words[p..p + 16]
}

// The bits of a word that a slot's key reads, all set.
const KEY_MASK: u64 = (1 << 58) - 1;

// The lower 58 bits of a word.
fn lower(w: u64) -> u64
    ensures { (result ≡ w % 288230376151711744) × (result < 288230376151711744) }
{
    w & KEY_MASK
}

// A slot's key: equal slots have equal keys.
pub fn key_of(slot: &[u64]) -> u64
    requires { length slot.now ≡ 16 }
    ensures { result ≡ key_from 0 slot.now }
{
    let mut key = 0;
    for w in slot {
        key = lower(key) * 31 + lower(*w);
    }
    key
}

// Whether the j-th result kept, which has index i, is this one: the first eight stand in `slots`.
fn same_kept(
    table: &IndexedTable<'_>,
    bound: usize,
    n: usize,
    m: u64,
    i: u64,
    slots: &[u64],
    j: usize,
    slot: &[u64],
) -> bool
    requires resolvable { Resolvable (table_of table.now) bound n (memory_of m) × (m < memory_bound) }
    requires i_in_bounds { i < length (resolve (table_of table.now) n (memory_of m)) }
    requires in_bounds { (128 ≤ length slots.now) × (length slot.now ≡ 16) }
    requires slots_value { j < 8 → window (j * 16) 16 slots.now
        ≡ slot_at (table_of table.now) n (memory_of m) i }
    ensures { result ≡ same_words slot.now
        (slot_at (table_of table.now) n (memory_of m) i) }
{
    if j < 8 {
        return same_at(slots, j * 16, slot);
    }
    let s = resolve_at(table, bound, n, m, i, [0u64; 16]);
    same_at(&s, 0, slot)
}

// Whether one of the k results kept, whose indices stand from `at` on, is this one.
fn found(
    table: &IndexedTable<'_>,
    bound: usize,
    n: usize,
    m: u64,
    indices: &[u64],
    at: usize,
    k: usize,
    keys: &[u64],
    slots: &[u64],
    slot: &[u64],
) -> bool
    requires resolvable { Resolvable (table_of table.now) bound n (memory_of m) × (m < memory_bound) }
    requires k_in_bounds { (at + k ≤ length indices.now) × (k ≤ length keys.now) }
    requires in_bounds { (128 ≤ length slots.now) × (length slot.now ≡ 16) }
    requires known { Known (slot_at (table_of table.now) n (memory_of m))
        (length (resolve (table_of table.now) n (memory_of m))) indices.now at k keys.now
        slots.now }
    ensures { result ≡ is_kept (slot_at (table_of table.now) n (memory_of m))
        (window at k indices.now) slot.now }
{
    let key = key_of(slot);
    for j in 0..k {
        if keys[j] != key {
            continue;
        }
        if same_kept(table, bound, n, m, indices[at + j], slots, j, slot) {
            return true;
        }
    }
    false
}

// Holds the slot of the k-th result kept, where it is one of the first eight.
fn hold(slots: &mut [u64], k: usize, slot: &[u64])
    requires { (128 ≤ length slots.old) × (length slot.now ≡ 16) }
    ensures { slots.new ≡ held_slots slots.old k slot.now }
{
    if k < 8 {
        store(slots, k * 16, slot);
    }
}

// Keeps the indices of the distinct ones among a term's c residuals from `at` on; gives how many.
// The keys of those kept and the slots of the first of them are at hand.
fn distinct_in(
    table: &IndexedTable<'_>,
    bound: usize,
    n: usize,
    m: u64,
    c: u64,
    indices: &mut [u64],
    at: usize,
    keys: &mut [u64],
    slots: &mut [u64],
) -> usize
    requires resolvable { Resolvable (table_of table.now) bound n (memory_of m) × (m < memory_bound) }
    requires c_value { c ≡ length (resolve (table_of table.now) n (memory_of m)) }
    requires c_in_bounds { (at + c ≤ length indices.old) × (c ≤ length keys.old) }
    requires in_bounds { 128 ≤ length slots.old }
    ensures { Stored indices.old indices.new at result
        (kept (slot_at (table_of table.now) n (memory_of m))
        (length (resolve (table_of table.now) n (memory_of m)))) }
{
    let mut k = 0;
    for i in 0..c {
        let slot = resolve_at(table, bound, n, m, i, [0u64; 16]);
        if found(table, bound, n, m, indices, at, k, keys, slots, &slot) {
            continue;
        }
        keys[k] = key_of(&slot);
        hold(slots, k, &slot);
        indices[at + k] = i;
        k += 1;
    }
    k
}

// The same for a term of two residuals, where no keys are needed.
fn distinct_two(
    table: &IndexedTable<'_>,
    bound: usize,
    n: usize,
    m: u64,
    indices: &mut [u64],
    at: usize,
) -> usize
    requires resolvable { Resolvable (table_of table.now) bound n (memory_of m) × (m < memory_bound) }
    requires m_len { length (resolve (table_of table.now) n (memory_of m)) ≡ 2 }
    requires at_in_bounds { at + 2 ≤ length indices.old }
    ensures { Stored indices.old indices.new at result
        (kept (slot_at (table_of table.now) n (memory_of m))
        (length (resolve (table_of table.now) n (memory_of m)))) }
{
    let first = resolve_at(table, bound, n, m, 0, [0u64; 16]);
    let second = resolve_at(table, bound, n, m, 1, [0u64; 16]);
    indices[at] = 0;
    if same_at(&first, 0, &second) {
        return 1;
    }
    indices[at + 1] = 1;
    2
}

// Keeps the indices of a term's distinct residuals from `at` on; gives how many. An only one is
// kept without a look at it.
pub fn distinct(
    table: &IndexedTable<'_>,
    bound: usize,
    n: usize,
    m: u64,
    store: &mut [u64],
    at: usize,
) -> usize
    requires resolvable { Resolvable (table_of table.now) bound n (memory_of m) × (m < memory_bound) }
    requires at_in_bounds { at + 256 ≤ length store.old }
    ensures { Stored store.old store.new at result
        (kept (slot_at (table_of table.now) n (memory_of m))
        (length (resolve (table_of table.now) n (memory_of m)))) }
{
    let c = table.branches(n);
    if c == 0 {
        return 0;
    }
    if c == 1 {
        store[at] = 0;
        return 1;
    }
    if c == 2 {
        return distinct_two(table, bound, n, m, store, at);
    }
    let mut keys = [0u64; 256];
    let mut slots = [0u64; 128];
    distinct_in(table, bound, n, m, c, store, at, &mut keys, &mut slots)
}
