// An accepted table with its index: what the monitor asks of it. Each method says what the abstract table of the
// list has.
#![tactic(auto)]

ghost use Rattle.std.specs.Prelude.{◌≡◌, ◌⊎◌, ◌+◌, ◌/◌, ◌%◌, ◌^◌, ◌<◌, ◌≤◌, eqb, length};
ghost use Rattle.table.specs.Rows.{alphabet_most};
ghost use Rattle.table.specs.Table.{term_count, body_number, enclosing as enclosingOf};
ghost use Rattle.table.specs.Width.{reach as reachOf};
ghost use Rattle.table.specs.Branches.{branches as branchesOf};
ghost use Rattle.table.specs.Branches.Capped.{capped};
ghost use Rattle.table.specs.Node.{term_of, kind_of, left_size, called_of, ref_of, parameter_of};
ghost use Rattle.table.specs.Member.{in_row};
ghost use Rattle.table_index.specs.Layout.{word_events};
ghost use Rattle.table_index.specs.Index.{Indexed};
ghost use Rattle.index.specs.Code.{Indexed-prop};

use table_index::layout;

// An accepted table: its number list, and the work area in which `check` left its index. What it says is
// `table_in` of the list.
#[derive(Clone, Copy)]
pub struct IndexedTable<'a> {
    pub list: &'a [u16],
    pub work: &'a [u64],
    pub ghost indexed: { Indexed list.now work.now } by { Indexed-prop list.now work.now },
}

// Whether the word of a row that has a bit for an event has that bit.
fn bit(word: u64, e: u64) -> bool
    ensures { result ≡ eqb (word / 2 ^ (e % word_events) % 2) 1 }
{
    (word >> (e % layout::WORD_EVENTS)) % 2 == 1
}

impl IndexedTable<'_> {
    ghost use Rattle.index.specs.Handle.{table_of};

    // The alphabet size.
    pub fn alphabet(&self) -> u64
        ensures { (result ≡ (table_of self.now).alphabet) × (result ≤ alphabet_most) }
    {
        self.work[layout::ALPHABET_AT]
    }

    // The number of definitions.
    pub fn definition_count(&self) -> usize
        ensures { (result ≡ length (table_of self.now).definitions) × (1 ≤ result) × (result ≤ 32) }
    {
        self.work[layout::DEFINITION_COUNT_AT] as usize
    }

    // The number of terms.
    pub fn term_count(&self) -> usize
        ensures { (result ≡ term_count (table_of self.now)) × (result ≤ 1024) }
    {
        self.work[layout::TERM_COUNT_AT] as usize
    }

    // The number of the body of definition d.
    pub fn body(&self, d: usize) -> usize
        requires d_in_bounds { d < length (table_of self.now).definitions }
        ensures { (result ≡ body_number (table_of self.now) d) × (result < 1024) }
    {
        self.work[layout::BODIES_AT + d] as usize
    }

    // The kind of term n: 0 STOP, 1 FAIL, 2 prefix, 3 choice, 4 parallel, 5 call.
    pub fn kind(&self, n: usize) -> u64
        requires n_bound { n < term_count (table_of self.now) }
        ensures { (result ≡ kind_of (term_of (table_of self.now) n)) × (result ≤ 5) }
    {
        self.work[layout::TERMS_AT + n] % layout::KINDS
    }

    // The number of a choice's or a parallel's right side; a prefix's follower and a left side have the
    // number n + 1.
    pub fn right(&self, n: usize) -> usize
        requires n_bound { n < term_count (table_of self.now) }
        ensures { (result ≡ n + 1 + left_size (term_of (table_of self.now) n)) × (result ≤ 1024) }
    {
        (self.work[layout::TERMS_AT + n] / layout::RIGHT_UNIT % layout::RIGHTS) as usize
    }

    // The definition that a call names.
    pub fn called(&self, n: usize) -> usize
        requires n_bound { n < term_count (table_of self.now) }
        requires n_value { kind_of (term_of (table_of self.now) n) ≡ 5 }
        ensures { (result ≡ called_of (term_of (table_of self.now) n))
            × (result < length (table_of self.now).definitions) }
    {
        (self.work[layout::TERMS_AT + n] / layout::TARGET_UNIT % layout::TARGETS) as usize
    }

    // Of a prefix or a parallel: 0 where its set is of kind 0, else its parameter and 1.
    pub fn parameter(&self, n: usize) -> u64
        requires n_bound { n < term_count (table_of self.now) }
        ensures { (result ≡ parameter_of (ref_of (term_of (table_of self.now) n))) × (result ≤ 4) }
    {
        self.work[layout::TERMS_AT + n] / layout::PARAMETER_UNIT % layout::PARAMETERS
    }

    // How many prefixes are around term n in its definition.
    pub fn enclosing(&self, n: usize) -> u64
        requires n_bound { n < term_count (table_of self.now) }
        ensures { (result ≡ enclosingOf (table_of self.now) n) × (result < 32) }
    {
        self.work[layout::TERMS_AT + n] / layout::PREFIXES_UNIT % layout::PREFIX_COUNTS
    }

    // The branches of term n (document 01: openings), 257 standing for any greater number.
    pub fn branches(&self, n: usize) -> u64
        requires n_bound { n < term_count (table_of self.now) }
        ensures { (result ≡ capped (branchesOf (table_of self.now)
            (term_of (table_of self.now) n)))
            × (result ≤ 257) }
    {
        self.work[layout::TERMS_AT + n] / layout::BRANCHES_UNIT % layout::BRANCH_COUNTS
    }

    // The reach of term n.
    pub fn reach(&self, n: usize) -> u64
        requires n_bound { n < term_count (table_of self.now) }
        ensures { (result ≡ reachOf (table_of self.now) (term_of (table_of self.now) n))
            × (result ≤ 8) }
    {
        self.work[layout::TERMS_AT + n] / layout::WIDTH_UNIT % layout::REACHES
    }

    // Whether the set of the prefix or parallel n, with v for the event that it recalls, holds event e.
    pub fn holds(&self, n: usize, v: u64, e: u64) -> bool
        requires n_bound { n < term_count (table_of self.now) }
        requires fact { (kind_of (term_of (table_of self.now) n) ≡ 2)
            ⊎ (kind_of (term_of (table_of self.now) n) ≡ 4) }
        requires v_bound { (v < (table_of self.now).alphabet) × (e < (table_of self.now).alphabet) }
        ensures { result ≡ in_row (table_of self.now) (ref_of (term_of (table_of self.now) n)) v
            e }
    {
        let w = self.work[layout::TERMS_AT + n];
        let row = (w / layout::TARGET_UNIT % layout::TARGETS) as usize;
        let second = (e / layout::WORD_EVENTS) as usize * layout::SECOND_AT;
        if w / layout::PARAMETER_UNIT % layout::PARAMETERS == 0 {
            return bit(self.work[row + second], e);
        }
        bit(self.work[row + v as usize + second], e)
    }
}
