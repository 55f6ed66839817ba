// The rules on references: refusal 7.
ghost use Rattle.std.specs.Prelude.{◌≡◌, ◌<◌, length};
ghost use Rattle.table.specs.Table.{term_count};
ghost use Rattle.table.specs.References.{first_wrong};
ghost use Rattle.table_index.specs.References.Words.{call_word_fits, bad_reference};
ghost use Rattle.table_index.specs.Layout.{own_digit};
ghost use Rattle.table.specs.Node.{term_of};
ghost use Rattle.table_index.specs.Index.{table_in};
ghost use Rattle.table_index.specs.Index.Heads.{head_length, heads_before};
ghost use Rattle.table_index.specs.Judging.{Judging, first_of};

use table::Kind;
use table_index::layout;

// Whether the call with this word keeps the rules.
fn call_fits(list: &[u16], work: &[u64], w: u64) -> bool
    requires judging { Judging list.now work.now }
    requires w_in_bounds { own_digit w < length (table_in list.now).definitions }
    ensures { result ≡ call_word_fits (table_in list.now).definitions w }
{
    let d = w / layout::TARGET_UNIT % layout::TARGETS;
    if work[layout::DEFINITION_COUNT_AT] <= d {
        return false;
    }
    let own = w / layout::OWN_UNIT % layout::OWNS;
    let level = work[layout::LEVELS_AT + d as usize];
    let home = work[layout::LEVELS_AT + own as usize];
    if home < level {
        return false;
    }
    if w / layout::PARALLEL_UNIT % layout::PARALLELS == 1 {
        if home <= level {
            return false;
        }
    }
    if w / layout::PREFIXES_UNIT % layout::PREFIX_COUNTS == 0 {
        return d < own;
    }
    true
}

// The place of the number at which term n breaks a rule on references. Before its kind stand p
// numbers, and the levels of the definitions up to its own.
fn bad_reference(list: &[u16], work: &[u64], n: usize, p: usize) -> Option<usize>
    requires judging { Judging list.now work.now }
    requires n_bound { n < term_count (table_in list.now) }
    requires p_value { p ≡ heads_before (table_in list.now) n }
    ensures { result ≡ bad_reference (table_in list.now) n }
{
    let w = work[layout::TERMS_AT + n];
    let at = p + (w / layout::OWN_UNIT % layout::OWNS) as usize + 1;
    if w % layout::KINDS == Kind::Call.number() {
        if call_fits(list, work, w) {
            return None;
        }
        return Some(at + 1);
    }
    let parameter = w / layout::PARAMETER_UNIT % layout::PARAMETERS;
    if parameter <= w / layout::PREFIXES_UNIT % layout::PREFIX_COUNTS {
        return None;
    }
    Some(at + 2)
}

// How many numbers term n has before those of the terms in it.
fn head_length(list: &[u16], work: &[u64], n: usize) -> usize
    requires judging { Judging list.now work.now }
    requires n_bound { n < term_count (table_in list.now) }
    ensures { result ≡ head_length (term_of (table_in list.now) n) }
{
    let w = work[layout::TERMS_AT + n];
    if 0 < w / layout::PARAMETER_UNIT % layout::PARAMETERS {
        return 3;
    }
    match Kind::of(w % layout::KINDS) {
        Some(Kind::Stop) => 1,
        Some(Kind::Fail) => 1,
        Some(Kind::Prefix) => 2,
        Some(Kind::Choice) => 1,
        Some(Kind::Parallel) => 2,
        Some(Kind::Call) => 2,
        None => 2,
    }
}

// The leftmost such number.
pub fn first_bad_reference(list: &[u16], work: &[u64]) -> Option<usize>
    requires { Judging list.now work.now }
    ensures { result ≡ first_of (first_wrong (table_in list.now)) }
{
    let terms = work[layout::TERM_COUNT_AT] as usize;
    let mut p = work[layout::START_AT] as usize;
    for n in 0..terms {
        if let Some(at) = bad_reference(list, work, n, p) {
            return Some(at);
        }
        p += head_length(list, work, n);
    }
    None
}
