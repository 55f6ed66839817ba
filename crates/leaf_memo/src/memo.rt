// What a store keeps of leaves, behind its nodes' parts: entries, each with the word of a leaf, an
// event and one more, and the leaf's results after that event, where it has room for them. The
// definitions are in `specs/Memo.antt`.
ghost use Rattle.std.specs.Prelude.{◌≡◌, true, ◌+◌, ◌<◌, ◌≤◌, length, get_or};
ghost use Rattle.table.specs.Rows.{alphabet_most};
ghost use Rattle.table.specs.Table.{Table};
ghost use Rattle.tree_walk.specs.Layout.{memo_at, entry_count, entry_words, store_words};
ghost use Rattle.leaf_memo.specs.Memo.{Apart, Copied, EntryAt, StoreOf, KeptInEntry, KeepsBy};

use node_word::{digit, term_of};
use tree_walk::layout;
use tree_walk::layout::{ENTRY_COUNT, ENTRY_MOST, ENTRY_WORDS};

// The lower five bits of a number: which of the entries.
fn lower(h: u64) -> u64
    ensures { result < entry_count }
{
    h & 31
}

// Where the entry of a leaf and an event stands: it is told by the term, by the memory's nearest
// two events and by the event. That of another leaf may stand there too.
pub fn entry_at(w: u64, e: u64) -> usize
    requires { e < alphabet_most }
    ensures { EntryAt result }
{
    let h = lower(term_of(w) as u64) + lower(digit(w, 0)) + lower(digit(w, 1)) * 3 + e * 5;
    layout::MEMO_AT + lower(h) as usize * ENTRY_WORDS
}

// True only where the entry at p is that of a leaf and an event.
pub fn is_entry(store: &[u64], p: usize, w: u64, e: u64) -> bool
    requires { (p + entry_words ≤ length store.now) × (e < alphabet_most) }
    ensures { result ≡ true → (get_or store.now p 0 ≡ w)
        × (get_or store.now (p + 1) 0 ≡ e + 1) }
{
    if store[p] != w {
        return false;
    }
    store[p + 1] == e + 1
}

// The part at p again at q: a number, and as many words after it.
pub fn copy_part(store: &mut [u64], p: usize, q: usize)
    requires p_in_bounds { (p < length store.old) × (p + get_or store.old p 0 < length store.old)
        × (q + get_or store.old p 0 < length store.old) }
    requires apart { Apart p q (get_or store.old p 0) }
    ensures { Copied store.old store.new p q }
{
    let n = store[p] as usize;
    store.copy_within(p..p + n + 1, q);
}

// Keeps the results of a leaf and an event, which stand from `at` on, in the entry at p, where they
// have room there.
pub fn keep(store: &mut [u64], p: usize, w: u64, e: u64, at: usize)
    requires { (memo_at ≤ p) × (p + entry_words ≤ length store.old) × (at + 257 ≤ memo_at)
        × (e < alphabet_most) }
    ensures { KeptInEntry store.old store.new p w e at }
{
    if ENTRY_MOST < store[at] {
        return;
    }
    copy_part(store, at, p + 2);
    store[p] = w;
    store[p + 1] = e + 1;
}

// Forgets what is kept of leaves: the store is then one of every table.
pub fn forget(store: &mut [u64])
    requires { length store.old ≡ store_words }
    ensures { (t : Table) → StoreOf t store.new }
{
    for i in 0..ENTRY_COUNT {
        store[layout::MEMO_AT + i * ENTRY_WORDS + 1] = 0;
    }
}

// Whether something is kept of a leaf: an event and one more is not 0.
pub fn keeps_some(store: &[u64]) -> bool
    requires { length store.now ≡ store_words }
    ensures { KeepsBy store.now result }
{
    for j in 0..ENTRY_COUNT {
        if 0 < store[layout::MEMO_AT + j * ENTRY_WORDS + 1] {
            return true;
        }
    }
    false
}
