// Whether results of a residual's leaves come again, by a look at some of them. It says which of
// two ways a step takes, and both have the same promise: so nothing is promised of what is here.
// What it asks is in `specs/Looking.antt`; the rule is in docs/DECISIONS.md, "When moves go the
// general way".
ghost use Rattle.std.specs.Prelude.{◌≡◌, ◌%◌, ◌<◌, ◌≤◌, length};
ghost use Rattle.index.specs.Handle.{table_of};
ghost use Rattle.node_word.specs.Word.{memory_bound, memory_of};
ghost use Rattle.residuals.specs.Residual.{resolve};
ghost use Rattle.resolving.specs.Distinct.{empty, Resolvable};
ghost use Rattle.resolving.specs.ResidualWords.{Resolves};
ghost use Rattle.tree_walk.specs.Layout.{entry_most, store_words};
ghost use Rattle.leaf_repeats.specs.Looking.{LooksLeaf, Looks};

use index::IndexedTable;
use leaf_memo::{entry_at, is_entry};
use node_word::{memory_of, remember, term_of};
use resolving::{Landed, descend, key_of, term_into};
use tree_walk::layout::ENTRY_MOST;

// A leaf with fewer branches is not looked at.
const LEAST: u64 = 8;

// What a look at a leaf says: nothing that counts; that its results come again; that it has many,
// and they are not seen to come again.
#[derive(Clone, Copy, PartialEq, Eq)]
enum Look {
    Plain,
    Again,
    Many,
}

// The key of the i-th residual of a term that is a parallel.
fn pair_key(table: &IndexedTable<'_>, bound: usize, n: usize, m: u64, i: u64) -> u64
    requires resolves { Resolves (table_of table.now) bound n (memory_of m) i empty }
    requires m_lt_memory_bound { m < memory_bound }
{
    let mut slot = [0u64; 16];
    term_into(table, bound, n, m, i, &mut slot);
    key_of(&slot)
}

// The key of the i-th residual of term n with the memory of m; that of a leaf is its word. The
// empty slot is not read: it names in `descend`'s contract what the residual is to follow.
fn key_at(table: &IndexedTable<'_>, bound: usize, n: usize, m: u64, i: u64, none: &[u64]) -> u64
    requires resolvable { Resolvable (table_of table.now) bound n (memory_of m) × (m < memory_bound) }
    requires i_in_bounds { i < length (resolve (table_of table.now) n (memory_of m)) }
    requires none_value { none.now ≡ empty }
{
    match descend(table, bound, n, m, i, none) {
        Landed::Nothing => 0,
        Landed::Leaf(w) => w,
        Landed::Pair {
            bound: b,
            term,
            memory,
            index,
        } => pair_key(table, b, term, memory, index),
    }
}

// How many keys at most b residuals have that are few: half as many, and no more than an entry
// keeps.
fn most_of(b: u64) -> u64
    ensures { result ≤ entry_most }
{
    let half = b / 2;
    if half < ENTRY_MOST {
        return half;
    }
    ENTRY_MOST
}

// Whether the b residuals of term n have at most so many keys, and two of the first s have the
// same.
fn few(table: &IndexedTable<'_>, bound: usize, n: usize, m: u64, b: u64, s: u64, most: u64) -> bool
    requires resolvable { Resolvable (table_of table.now) bound n (memory_of m) × (m < memory_bound) }
    requires b_in_bounds { b ≤ length (resolve (table_of table.now) n (memory_of m)) }
    requires most_le_entry_most { most ≤ entry_most }
{
    let none = [0u64; 16];
    let mut keys = [0u64; 13];
    let mut k = 0;
    for i in 0..b {
        if s <= i {
            if i == k as u64 {
                return false;
            }
        }
        let key = key_at(table, bound, n, m, i, &none);
        if keys[..k].contains(&key) {
            continue;
        }
        if most <= k as u64 {
            return false;
        }
        keys[k] = key;
        k += 1;
    }
    true
}

// A leaf with b branches whose results are not seen to come again: there are many where an entry
// might not keep them.
fn other_of(b: u64) -> Look {
    if ENTRY_MOST < b {
        return Look::Many;
    }
    Look::Plain
}

// What a look at a leaf says: its results come again where they are kept, or are seen to be few.
fn look_leaf(table: &IndexedTable<'_>, bound: usize, e: u64, w: u64, store: &[u64]) -> Look
    requires looks_leaf { LooksLeaf (table_of table.now) bound e w }
    requires store_len { length store.now ≡ store_words }
{
    let t = term_of(w) + 1;
    let b = table.branches(t);
    if b < LEAST {
        return Look::Plain;
    }
    if is_entry(store, entry_at(w, e), w, e) {
        return Look::Again;
    }
    let m = remember(e, memory_of(w));
    if few(table, bound, t, m, b, b / 4, most_of(b)) {
        return Look::Again;
    }
    other_of(b)
}

// The same of a node, which is such a leaf where the marks' lowest bit is set.
fn look_node(
    table: &IndexedTable<'_>,
    bound: usize,
    e: u64,
    w: u64,
    marks: u64,
    store: &[u64],
) -> Look
    requires looks_leaf { marks % 2 ≡ 1 → LooksLeaf (table_of table.now) bound e w }
    requires store_len { length store.now ≡ store_words }
{
    if marks % 2 == 1 {
        return look_leaf(table, bound, e, w, store);
    }
    Look::Plain
}

// Whether results of one of the marked leaves come again, of the n nodes from p on, and none of
// them has many of which that is not seen. n is not read: `Looks` says with it that no mark is
// beyond the nodes.
pub fn repeats(
    table: &IndexedTable<'_>,
    bound: usize,
    e: u64,
    src: &[u64],
    p: usize,
    n: usize,
    each: u64,
    store: &[u64],
) -> bool
    requires looks { Looks (table_of table.now) bound e src.now p n each }
    requires store_len { length store.now ≡ store_words }
{
    let mut again = false;
    let mut x = each;
    let mut at = p;
    // no index: it ends with the last mark
    while 0 < x {
        match look_node(table, bound, e, src[at], x, store) {
            Look::Many => {
                return false;
            }
            Look::Again => again = true,
            Look::Plain => {}
        }
        x /= 2;
        at += 1;
    }
    again
}
