// What becomes of a residual that takes an event, where bits for its nodes can say it; such a
// residual needs no store. Its nodes are gone through once, from the last to the first, the ways of
// the trees so far on a stack. The definitions are in `specs/Only.antt` and `specs/Code.antt`.
ghost use Rattle.std.specs.Prelude.{◌≡◌, ◌+◌, ◌<◌};
ghost use Rattle.index.specs.Handle.{table_of};
ghost use Rattle.resolving.specs.Words.{KnownWord};
ghost use Rattle.tree_ways.specs.Only.{leaf_way, Rooted, WayIn};
ghost use Rattle.tree_ways.specs.Code.{way_code, either_code, both_code, pair_code, code_bound};
ghost use Rattle.tree_ways.specs.Code.{DecodedWay, CodeIn};

use index::IndexedTable;
use node_word::term_of;
use resolving::{holds_at, kind_at};
use tree_walk::is_pair;

// Several results of a tree, by bits for its nodes (the first node's is the lowest): one result for
// each leaf of `each` and each residual that it comes to, the leaves of `also` moving with it,
// which come to one residual each. `lone`: it is one result.
#[derive(Drop)]
pub struct Moves {
    pub each: u64,
    pub also: u64,
    pub lone: bool,
}

// What becomes of a tree: nothing; the results that the moves say; or perhaps more.
#[derive(Drop)]
pub enum Way {
    Still,
    Moving(Moves),
    Many,
}

// A way as one word: 0 for nothing; else the bits of `each`, those of `also`, and whether it is one
// result, several, or perhaps more.
const ALSO: u64 = 1 << 16;

const LONE: u64 = 1 << 32;

const SEVERAL: u64 = 2 * LONE;

const MANY: u64 = 3 * LONE + ALSO;

// The word of a leaf's way, the leaf being the j-th node.
fn leaf_code(table: &IndexedTable<'_>, w: u64, e: u64, j: usize) -> u64
    requires known_word { KnownWord (table_of table.now) w }
    requires e_bound { (e < (table_of table.now).alphabet) × (j < 15) }
    ensures { result ≡ way_code (leaf_way (table_of table.now) e w) j }
{
    // 01 names this form: a match over kind numbers, with a range arm
    match kind_at(table, w) {
        2 => {
            if holds_at(table, w, e) {
                return match table.branches(term_of(w) + 1) {
                    0 => 0,
                    1 => (1 << j) + LONE,
                    2..=18446744073709551615 => (1 << j) + SEVERAL,
                };
            }
            0
        }
        0 | 3 | 5 => 0,
        4 => 0,
        1 => 0,
        6..=18446744073709551615 => 0,
    }
}

// The word of a pair whose sides both move, one at a time.
fn either_code(a: u64, b: u64) -> u64
    ensures { result ≡ either_code a b }
{
    if a / ALSO % ALSO + b / ALSO % ALSO == 0 {
        return a % ALSO + b % ALSO + SEVERAL;
    }
    MANY
}

// The word of a pair whose sides both move, both together.
fn both_code(a: u64, b: u64) -> u64
    requires { (a < code_bound) × (b < code_bound) }
    ensures { result ≡ both_code a b }
{
    if MANY <= a {
        return MANY;
    }
    if MANY <= b {
        return MANY;
    }
    if a < SEVERAL {
        return b + (a % ALSO + a / ALSO % ALSO) * ALSO;
    }
    if b < SEVERAL {
        return a + (b % ALSO + b / ALSO % ALSO) * ALSO;
    }
    MANY
}

// The word of a pair, from those of its left and its right side: whether both take the event.
fn pair_code(a: u64, b: u64, held: bool) -> u64
    requires { (a < code_bound) × (b < code_bound) }
    ensures { result ≡ pair_code a b held }
{
    if held {
        if a == 0 {
            return 0;
        }
        if b == 0 {
            return 0;
        }
        return both_code(a, b);
    }
    if a == 0 {
        return b;
    }
    if b == 0 {
        return a;
    }
    either_code(a, b)
}

// The way that a word says.
fn decode(v: u64) -> Way
    ensures { DecodedWay v result }
{
    if v == 0 {
        return Way::Still;
    }
    if MANY <= v {
        return Way::Many;
    }
    Way::Moving(Moves {
        each: v % ALSO,
        also: v / ALSO % ALSO,
        lone: v < SEVERAL,
    })
}

// The word of the residual with n nodes from k on. At a pair, its left side's is on top of the
// stack and its right side's below it.
fn root_code(table: &IndexedTable<'_>, area: &[u64], k: usize, n: usize, e: u64) -> u64
    requires e_bound { (e < (table_of table.now).alphabet) × Rooted (table_of table.now) area.now k n }
    ensures { CodeIn (table_of table.now) e area.now k n result }
{
    let mut stack = [0u64; 16];
    let mut h = 0;
    // down, and beside it a stack whose height goes up and down
    let mut j = n;
    while 0 < j {
        j -= 1;
        let w = area[k + j];
        if is_pair(table, w) {
            let held = holds_at(table, w, e);
            stack[h - 2] = pair_code(stack[h - 1], stack[h - 2], held);
            h -= 1;
            continue;
        }
        stack[h] = leaf_code(table, w, e, j);
        h += 1;
    }
    stack[0]
}

// The way of the residual with n nodes from k on. Many are one leaf.
pub fn way_of(table: &IndexedTable<'_>, area: &[u64], k: usize, n: usize, e: u64) -> Way
    requires e_bound { (e < (table_of table.now).alphabet) × Rooted (table_of table.now) area.now k n }
    ensures { WayIn (table_of table.now) e area.now k n result }
{
    if n == 1 {
        return decode(leaf_code(table, area[k], e, 0));
    }
    decode(root_code(table, area, k, n, e))
}
