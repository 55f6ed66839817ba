// What the code asks of a node word and of a term by number (01, "Residuals"). The words themselves
// are in crate node_word; the definitions are in `specs/Words.antt`.
ghost use Rattle.std.specs.Prelude.{◌≡◌, ◌⊎◌, ◌<◌};
ghost use Rattle.table.specs.Table.{term_count};
ghost use Rattle.table.specs.Node.{term_of};
ghost use Rattle.index.specs.Handle.{table_of};
ghost use Rattle.node_word.specs.Word.{memory_bound, pack, term_of_word, memory_of};
ghost use Rattle.residuals.specs.Keep.{keep};
ghost use Rattle.resolving.specs.Words.{kind_at, holds_at, KnownWord};

use index::IndexedTable;
use node_word::{digit, node, term_of};

// The node word of term n with what it keeps of a memory, which is the memory of m: all of it.
pub fn node_at(table: &IndexedTable<'_>, n: usize, m: u64) -> u64
    requires n_bound { (n < term_count (table_of table.now)) × (m < memory_bound) }
    ensures { result ≡ pack n (keep (term_of (table_of table.now) n) (memory_of m)) }
{
    node(n, m)
}

// The kind of a word's term.
pub fn kind_at(table: &IndexedTable<'_>, w: u64) -> u64
    requires w_bound { term_of_word w < term_count (table_of table.now) }
    ensures { result ≡ kind_at (table_of table.now) w }
{
    table.kind(term_of(w))
}

// Whether the set of a prefix's or a parallel's word holds an event. A set of kind 0 recalls no
// event; the parameter of another says which.
pub fn holds_at(table: &IndexedTable<'_>, w: u64, e: u64) -> bool
    requires known_word { KnownWord (table_of table.now) w }
    requires fact { (kind_at (table_of table.now) w ≡ 2) ⊎ (kind_at (table_of table.now) w ≡ 4) }
    requires e_bound { e < (table_of table.now).alphabet }
    ensures { result ≡ holds_at (table_of table.now) e w }
{
    let n = term_of(w);
    let k = table.parameter(n);
    if k == 0 {
        return table.holds(n, 0, e);
    }
    table.holds(n, digit(w, k - 1), e)
}
