// The results of one residual's leaves, prepared in a store. A tree that cannot take the event is
// known before the results of any of its leaves are looked for, and is passed over. The definitions
// are in `specs/Prepared.antt`.
ghost use Rattle.std.specs.Prelude.{◌≡◌, true, ◌<◌, ◌≤◌, eqb, length, get_or};
ghost use Rattle.table.specs.Table.{term_count};
ghost use Rattle.index.specs.Handle.{table_of};
ghost use Rattle.node_word.specs.Word.{term_of_word};
ghost use Rattle.resolving.specs.Words.{kind_at, holds_at};
ghost use Rattle.tree_walk.specs.Course.{node_count};
ghost use Rattle.leaf_memo.specs.Memo.{StoreOf};
ghost use Rattle.leaf_results.specs.Prepared.{Loaded, LeafFilled, FilledBefore, Fills};
ghost use Rattle.leaf_results.specs.Prepared.{TreeFrom, TreeFilled};

use index::IndexedTable;
use leaf_memo::{copy_part, entry_at, is_entry, keep};
use node_word::{memory_of, remember, term_of};
use resolving::{distinct, kind_at};
use tree_moves::takes_at;

// Whether a node is a prefix, by the kind of its term. A residual's other nodes are STOP and pairs.
fn is_prefix(table: &IndexedTable<'_>, w: u64) -> bool
    requires w_bound { term_of_word w < term_count (table_of table.now) }
    ensures { result ≡ eqb (kind_at (table_of table.now) w) 2 }
{
    // 01 names this form: a match over kind numbers, with a range arm
    match kind_at(table, w) {
        2 => true,
        0 | 3 | 5 => false,
        4 => false,
        1 => false,
        6..=18446744073709551615 => false,
    }
}

// True only where there is a node `last`, not 0, and its word is w.
fn has_word(store: &[u64], last: usize, w: u64) -> bool
    requires { last < length store.now }
    ensures { result ≡ true → (0 < last) × (get_or store.now last 0 ≡ w) }
{
    if last == 0 {
        return false;
    }
    store[last] == w
}

// Fills the part of node k, a prefix whose set holds the event: with the results that are kept of
// its word and the event, or else with those of its follower, which are kept then.
fn prepare_prefix(table: &IndexedTable<'_>, bound: usize, e: u64, store: &mut [u64], k: usize)
    requires loaded { Loaded (table_of table.now) bound e store.old }
    requires le_k { (1 ≤ k) × (k ≤ node_count store.old) }
    requires k_value { (kind_at (table_of table.now) (get_or store.old k 0) ≡ 2)
        × (holds_at (table_of table.now) e (get_or store.old k 0) ≡ true) }
    ensures { LeafFilled (table_of table.now) e store.old store.new k
        × StoreOf (table_of table.now) store.new }
{
    let w = store[k];
    let at = k * 257;
    let p = entry_at(w, e);
    if is_entry(store, p, w, e) {
        copy_part(store, p + 2, at);
        return;
    }
    let m = remember(e, memory_of(w));
    let c = distinct(table, bound, term_of(w) + 1, m, store, at + 1);
    store[at] = c as u64;
    keep(store, p, w, e, at);
}

// Fills the part of node k, a prefix whose set holds the event. Where it has the word of `last`,
// which was filled before, it takes over its part.
fn prepare_leaf(
    table: &IndexedTable<'_>,
    bound: usize,
    e: u64,
    store: &mut [u64],
    k: usize,
    last: usize,
)
    requires loaded { Loaded (table_of table.now) bound e store.old }
    requires le_k { (1 ≤ k) × (k ≤ node_count store.old) }
    requires k_value { (kind_at (table_of table.now) (get_or store.old k 0) ≡ 2)
        × (holds_at (table_of table.now) e (get_or store.old k 0) ≡ true) }
    requires filled_before { FilledBefore (table_of table.now) e store.old k last }
    ensures { LeafFilled (table_of table.now) e store.old store.new k
        × StoreOf (table_of table.now) store.new }
{
    let w = store[k];
    if has_word(store, last, w) {
        copy_part(store, last * 257, k * 257);
        return;
    }
    prepare_prefix(table, bound, e, store, k);
}

// Where a tree ends: the node after it, and a prefix that is filled by then, or 0.
#[derive(Drop)]
struct TreeEnd {
    next: usize,
    last: usize,
}

// Fills the parts of the tree at node k. Where it cannot take the event, that alone is said. Else
// it is a prefix, whose results are filled in, or a pair: that it takes the event, then its two
// sides. `last` is a prefix that was filled before, or 0.
fn prepare_tree(
    table: &IndexedTable<'_>,
    bound: usize,
    e: u64,
    store: &mut [u64],
    k: usize,
    last: usize,
) -> TreeEnd
    requires loaded { Loaded (table_of table.now) bound e store.old }
    requires tree_from { TreeFrom (table_of table.now) store.old k }
    requires filled_before { FilledBefore (table_of table.now) e store.old k last }
    ensures { TreeFilled (table_of table.now) e store.old store.new k result
        × StoreOf (table_of table.now) store.new }
{
    let tree = takes_at(table, store, k, e);
    if tree.moves {
        let w = store[k];
        let next = k + 1;
        if is_prefix(table, w) {
            prepare_leaf(table, bound, e, store, k, last);
            return TreeEnd { next, last: k };
        }
        store[k * 257] = 1;
        let left = prepare_tree(table, bound, e, store, next, last);
        return prepare_tree(table, bound, e, store, left.next, left.last);
    }
    let next = tree.next;
    store[k * 257] = 0;
    TreeEnd { next, last }
}

// Fills the store for the residual in its first sixteen words.
pub fn prepare(table: &IndexedTable<'_>, bound: usize, e: u64, store: &mut [u64])
    requires loaded { Loaded (table_of table.now) bound e store.old }
    ensures { Fills (table_of table.now) bound e store.old store.new
        × StoreOf (table_of table.now) store.new }
{
    prepare_tree(table, bound, e, store, 1, 0);
}
