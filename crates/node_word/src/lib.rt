// Node words: term × 2^28 + m0 × 2^21 + m1 × 2^14 + m2 × 2^7 + m3 (document 02, W6: "memory digits
// take seven bits"). No other code packs a word or takes one apart. The definitions are in
// `specs/Word.antt`, their laws in `proofs/Word/Laws.antt`.
#![tactic(auto)]

ghost use Rattle.std.specs.Prelude.{◌≡◌, ◌<◌};
ghost use Rattle.table.specs.Memory.{digit as eventAt, remember as remembered};
ghost use Rattle.node_word.specs.Word.{digit_bound, memory_bound, pack, term_of_word, memory_of};

// The bits of an event in a word; where the second, the first event and the term begin.
const DIGIT_BITS: u64 = 7;

const SECOND: u64 = 2 * DIGIT_BITS;

const FIRST: u64 = 3 * DIGIT_BITS;

const TERM: u64 = 4 * DIGIT_BITS;

// What 1 of the first event and of the term counts.
const FIRST_UNIT: u64 = 1 << FIRST;

const TERM_UNIT: u64 = 1 << TERM;

// The bits of an event and of a memory, all set.
const DIGIT_MASK: u64 = (1 << DIGIT_BITS) - 1;

const MEMORY_MASK: u64 = (1 << TERM) - 1;

// The node word of a term with a memory, which is the memory of m.
pub fn node(n: usize, m: u64) -> u64
    requires { (n < 1024) × (m < memory_bound) }
    ensures { result ≡ pack n (memory_of m) }
{
    n as u64 * TERM_UNIT + m
}

// The number of a word's term.
pub fn term_of(w: u64) -> usize
    ensures { result ≡ term_of_word w }
{
    (w >> TERM) as usize
}

// A word's memory, as a word of term 0.
pub fn memory_of(w: u64) -> u64
    ensures { (memory_of result ≡ memory_of w) × (result < memory_bound) }
{
    w & MEMORY_MASK
}

// A memory with one event more.
pub fn remember(e: u64, m: u64) -> u64
    requires { (e < digit_bound) × (m < memory_bound) }
    ensures { (memory_of result ≡ remembered e (memory_of m)) × (result < memory_bound) }
{
    e * FIRST_UNIT + (m >> DIGIT_BITS)
}

// The i-th event of a word's memory, the nearest first.
pub fn digit(w: u64, i: u64) -> u64
    ensures { (result ≡ eventAt (memory_of w) i) × (result < digit_bound) }
{
    match i {
        0 => (w >> FIRST) & DIGIT_MASK,
        1 => (w >> SECOND) & DIGIT_MASK,
        2 => (w >> DIGIT_BITS) & DIGIT_MASK,
        3..=18446744073709551615 => w & DIGIT_MASK,
    }
}
