// Valid slots (document 01, "Disturbed": "A valid slot is one whole residual tree of known STOP,
// prefix and parallel terms, its other words zero; memory is below A, zero beyond the term's
// enclosing prefixes; the leaves' reach sums to at most 8"). The definitions are in
// `specs/Valid.antt` of crate monitor_spec, those of the walk over a slot's node words in
// `specs/Walk.antt`.
ghost use Rattle.std.specs.Prelude.{◌≡◌, ◌+◌, ◌≤◌, length, take, drop, Some};
ghost use Rattle.index.specs.Handle.{table_of};
ghost use Rattle.node_word.specs.Word.{memory_of};
ghost use Rattle.slots.specs.Canon.{compare_words};
ghost use Rattle.monitor_spec.specs.Valid.{digit_fits, memory_fits, is_below, valid_slot};
ghost use Rattle.monitor_spec.specs.Consistent.{all_zero};
ghost use Rattle.valid_slots.specs.Walk.{Few, with_leaf, paired, is_whole};
ghost use Rattle.valid_slots.specs.Walk.{word_fits, planted, planted_all};

use index::IndexedTable;
use node_word::{digit, term_of};

// The bits of the eight words from i on: 0 only where the eight are zero.
fn eight(area: &[u64], i: usize) -> u64
    requires { i + 8 ≤ length area.now }
    ensures { result ≡ 0 → all_zero (drop (i + 8) area.now)
        ≡ all_zero (drop i area.now) }
{
    let low = area[i] | area[i + 1] | area[i + 2] | area[i + 3];
    let high = area[i + 4] | area[i + 5] | area[i + 6] | area[i + 7];
    low | high
}

// A place from which on the words are zero exactly where those from one on are: words are passed
// over eight at a time, as long as eight are left and zero.
fn past_zeros(area: &[u64], from: usize) -> usize
    ensures { all_zero (drop result area.now) ≡ all_zero (drop from area.now) }
{
    if area.len() < 8 {
        return from;
    }
    let last = area.len() - 8;
    // Kept as it is: it steps by eight words, for speed, and says where it ended.
    let mut i = from;
    while i <= last {
        if eight(area, i) != 0 {
            return i;
        }
        i += 8;
    }
    i
}

// Whether the words from one on are zero.
pub fn all_zero(area: &[u64], from: usize) -> bool
    ensures { result ≡ all_zero (drop from area.now) }
{
    for i in past_zeros(area, from)..area.len() {
        if area[i] != 0 {
            return false;
        }
    }
    true
}

// Whether v can be the i-th event of a memory where c prefixes enclose the term.
fn digit_fits(alphabet: u64, c: u64, i: u64, v: u64) -> bool
    ensures { result ≡ digit_fits alphabet c i v }
{
    if alphabet <= v {
        return false;
    }
    if i < c {
        return true;
    }
    v == 0
}

// Whether the memory of a node word is as the term allows.
fn memory_fits(alphabet: u64, c: u64, w: u64) -> bool
    ensures { result ≡ memory_fits alphabet c (memory_of w) }
{
    for i in 0..4 {
        if !digit_fits(alphabet, c, i, digit(w, i)) {
            return false;
        }
    }
    true
}

// Whether a node word has a known term, and a memory that it allows.
fn word_fits(table: &IndexedTable<'_>, w: u64) -> bool
    ensures { result ≡ word_fits (table_of table.now) w }
{
    let n = term_of(w);
    if table.term_count() <= n {
        return false;
    }
    memory_fits(table.alphabet(), table.enclosing(n), w)
}

// Trees that node words spell: how many, and the sum of their leaves' reach.
#[derive(Clone, Copy)]
pub struct Trees {
    count: u64,
    reach: u64,
}

impl Trees {
    // With a leaf in front.
    fn leaf(self, reach: u64) -> Self
        requires { Few (Some self) 14 × (reach ≤ 8) }
        ensures { Some result ≡ with_leaf reach (Some self) }
    {
        Trees {
            count: self.count + 1,
            reach: reach + self.reach,
        }
    }

    // The first two under a parallel.
    fn join(self) -> Option<Self>
        ensures { result ≡ paired (Some self) }
    {
        if self.count < 2 {
            return None;
        }
        Some(Trees {
            count: self.count - 1,
            ..self
        })
    }

    // One, of a reach that is not too large.
    fn whole(self) -> bool
        ensures { result ≡ is_whole (Some self) }
    {
        self.count == 1 && self.reach <= 8
    }
}

// The trees with one node word in front; None where the words spell none.
fn plant(table: &IndexedTable<'_>, w: u64, forest: Option<Trees>) -> Option<Trees>
    requires few { Few forest 14 }
    ensures { result ≡ planted (table_of table.now) w forest }
{
    let trees = forest?;
    if !word_fits(table, w) {
        return None;
    }
    let n = term_of(w);
    let kind = table.kind(n);
    match kind {
        0 | 2 => Some(trees.leaf(table.reach(n))),
        4 => trees.join(),
        _ => None,
    }
}

// What the first n node words of a slot spell, read from the last.
fn walk(table: &IndexedTable<'_>, slot: &[u64], n: usize) -> Option<Trees>
    requires slot_len { (length slot.now ≡ 16) × (n ≤ 15) }
    ensures { result ≡ planted_all (table_of table.now) (take n (drop 1 slot.now)) }
{
    let mut forest = Some(Trees { count: 0, reach: 0 });
    // Kept as it is: it goes down, from the n-th word to the first.
    let mut i = n;
    while 0 < i {
        forest = plant(table, slot[i], forest);
        i -= 1;
    }
    forest
}

// Whether a slot is valid.
pub fn slot_fits(table: &IndexedTable<'_>, slot: &[u64]) -> bool
    requires slot_len { length slot.now ≡ 16 }
    ensures { result ≡ valid_slot (table_of table.now) slot.now }
{
    let count = slot[0];
    if count == 0 {
        return false;
    }
    if 15 < count {
        return false;
    }
    let n = count as usize;
    if !all_zero(slot, n + 1) {
        return false;
    }
    match walk(table, slot, n) {
        Some(trees) => trees.whole(),
        None => false,
    }
}

// Whether a slot stands before another.
pub fn below(slot: &[u64], next: &[u64]) -> bool
    requires { (length slot.now ≡ 16) × (length next.now ≡ 16) }
    ensures { result ≡ is_below (compare_words slot.now next.now) }
{
    slot < next
}
