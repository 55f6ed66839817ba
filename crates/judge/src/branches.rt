// Branches of terms (document 01: openings), counted up to 257: refusal 9.
ghost use Rattle.std.specs.Prelude.{◌≡◌, ◌+◌, ◌*◌, min};
ghost use Rattle.std.proofs.Math.Option.{none};
ghost use Rattle.table.specs.References.{first_wrong};
ghost use Rattle.table_index.specs.Index.{table_in, Reaching};
ghost use Rattle.table_index.specs.Judging.{Judging, ExcessDone};
ghost use Rattle.table_index.specs.Filling.{BranchesAsked, BranchesGiven, FillAsked};
ghost use Rattle.table_index.specs.Filling.{BranchesFilled, AllAsked, AllDone};
ghost use Rattle.table_index.specs.Filling.{ExcessAsked, exceeds};

use table::Kind;
use table_index::layout;

// a + b, or 257 where that is more than 256
fn sum_capped(a: u64, b: u64) -> u64
    ensures { result ≡ min 257 (a + b) }
{
    if 256 < a {
        return 257;
    }
    if 256 < b {
        return 257;
    }
    let s = a + b;
    if 256 < s { 257 } else { s }
}

// a * b, or 257 where that is more than 256
fn product_capped(a: u64, b: u64) -> u64
    ensures { result ≡ min 257 (a * b) }
{
    if a == 0 {
        return 0;
    }
    if b == 0 {
        return 0;
    }
    if 256 < a {
        return 257;
    }
    if 256 < b {
        return 257;
    }
    let s = a * b;
    if 256 < s { 257 } else { s }
}

// The branches of term n, where the terms after it, and the body that it calls, have theirs.
fn branches_at(list: &[u16], work: &[u64], n: usize) -> u64
    requires { BranchesAsked (table_in list.now) work.now n }
    ensures { BranchesGiven (table_in list.now) work.now n result }
{
    let w = work[layout::TERMS_AT + n];
    match Kind::of(w % layout::KINDS) {
        Some(Kind::Stop) => 1,
        Some(Kind::Fail) => 0,
        Some(Kind::Prefix) => 1,
        Some(Kind::Choice) => sum_capped(
            work[layout::TERMS_AT + n + 1] / layout::BRANCHES_UNIT % layout::BRANCH_COUNTS,
            work[layout::TERMS_AT + (w / layout::RIGHT_UNIT % layout::RIGHTS) as usize]
                / layout::BRANCHES_UNIT
                % layout::BRANCH_COUNTS,
        ),
        Some(Kind::Parallel) => product_capped(
            work[layout::TERMS_AT + n + 1] / layout::BRANCHES_UNIT % layout::BRANCH_COUNTS,
            work[layout::TERMS_AT + (w / layout::RIGHT_UNIT % layout::RIGHTS) as usize]
                / layout::BRANCHES_UNIT
                % layout::BRANCH_COUNTS,
        ),
        Some(Kind::Call) => {
            let d = (w / layout::TARGET_UNIT % layout::TARGETS) as usize;
            let root = work[layout::BODIES_AT + d] as usize;
            work[layout::TERMS_AT + root] / layout::BRANCHES_UNIT % layout::BRANCH_COUNTS
        }
        None => 0,
    }
}

// The branches of the terms from one number up to another.
fn fill_branches(list: &[u16], work: &mut [u64], from: usize, to: usize)
    requires { FillAsked (table_in list.now) work.old from to }
    ensures { BranchesFilled (table_in list.now) work.old work.new from
        to }
{
    let mut n = to;
    // Down from `to`, since a term needs the terms after it: a `for` over `rev()` is no plainer.
    while from < n {
        n -= 1;
        let branches = branches_at(list, work, n);
        let w = work[layout::TERMS_AT + n];
        work[layout::TERMS_AT + n] = w % layout::BRANCHES_UNIT + branches * layout::BRANCHES_UNIT;
    }
}

// The branches of every term: those of the bodies first, one after another, since a call under no
// prefix names a lower definition; then those of all terms.
fn fill_all_branches(list: &[u16], work: &mut [u64])
    requires { AllAsked (table_in list.now) work.old }
    ensures { AllDone (table_in list.now) work.old
        work.new }
{
    let definitions = work[layout::DEFINITION_COUNT_AT] as usize;
    let terms = work[layout::TERM_COUNT_AT] as usize;
    for d in 0..definitions {
        let root = work[layout::BODIES_AT + d] as usize;
        let end = work[layout::BODIES_AT + d + 1] as usize;
        fill_branches(list, work, root, end);
    }
    fill_branches(list, work, 0, terms);
}

// Whether term n is a body or follower with more than 256 branches.
fn excess_at(list: &[u16], work: &[u64], n: usize) -> bool
    requires { ExcessAsked (table_in list.now) work.now n }
    ensures { result ≡ exceeds (table_in list.now) n }
{
    let w = work[layout::TERMS_AT + n];
    if w / layout::ENTRY_UNIT % layout::ENTRIES == 1 {
        256 < w / layout::BRANCHES_UNIT % layout::BRANCH_COUNTS
    } else {
        false
    }
}

// The lowest body or follower with more than 256 branches; the branches of all terms are stored.
pub fn first_excess(list: &[u16], work: &mut [u64]) -> Option<usize>
    requires judging { Judging list.now work.old }
    requires list_value { first_wrong (table_in list.now) ≡ none }
    requires reaching { Reaching (table_in list.now) work.old }
    ensures { ExcessDone list.now work.new result }
{
    fill_all_branches(list, work);
    let terms = work[layout::TERM_COUNT_AT] as usize;
    for n in 0..terms {
        if excess_at(list, work, n) {
            return Some(n);
        }
    }
    None
}
