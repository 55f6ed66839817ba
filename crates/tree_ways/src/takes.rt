// Whether a residual in an area may take an event: whether there is a residual after it.
// The definitions are in `specs/Takes.antt`.
ghost use Rattle.std.specs.Prelude.{◌≡◌, ◌<◌};
ghost use Rattle.index.specs.Handle.{table_of};
ghost use Rattle.resolving.specs.Words.{kind_at, KnownWord};
ghost use Rattle.tree_ways.specs.Takes.{TreeAt, Takes, leaf_takes, pair_takes};

use index::IndexedTable;
use node_word::term_of;
use resolving::{holds_at, kind_at};

// Of the tree at a node: whether it may take the event, and where the next one starts.
#[derive(Drop)]
pub struct Tree {
    pub moves: bool,
    pub next: usize,
}

// Whether a prefix may take event e.
fn leaf_takes(table: &IndexedTable<'_>, w: u64, e: u64) -> bool
    requires known_word { KnownWord (table_of table.now) w × (kind_at (table_of table.now) w ≡ 2) }
    requires e_bound { e < (table_of table.now).alphabet }
    ensures { result ≡ leaf_takes (table_of table.now) e w }
{
    if holds_at(table, w, e) {
        return 0 < table.branches(term_of(w) + 1);
    }
    false
}

// Whether a pair may take the event, by its sides: both, or one of them.
fn pair_takes(left: bool, right: bool, held: bool) -> bool
    ensures { result ≡ pair_takes left right held }
{
    if held {
        if left {
            return right;
        }
        return false;
    }
    if left {
        return true;
    }
    right
}

// Whether the tree whose first node stands at k may take event e, and where its words end.
pub fn takes_at(table: &IndexedTable<'_>, area: &[u64], k: usize, e: u64) -> Tree
    requires e_bound { (e < (table_of table.now).alphabet) × TreeAt (table_of table.now) area.now k }
    ensures { Takes (table_of table.now) e area.now k result }
{
    let w = area[k];
    let next = k + 1;
    // 01 names this form: a match over kind numbers, with a range arm
    match kind_at(table, w) {
        2 => {
            let moves = leaf_takes(table, w, e);
            Tree { moves, next }
        }
        4 => {
            let a = takes_at(table, area, next, e);
            let p = a.next;
            let b = takes_at(table, area, p, e);
            let moves = pair_takes(a.moves, b.moves, holds_at(table, w, e));
            let end = b.next;
            Tree { moves, next: end }
        }
        0 | 3 | 5 => Tree { moves: false, next },
        1 => Tree { moves: false, next },
        6..=18446744073709551615 => Tree { moves: false, next },
    }
}
