// Storing a term as a word, whose digits `table_index::layout` has; reading a term without terms in
// it.
ghost use Rattle.std.specs.Prelude.{◌≡◌, ◌+◌, ◌<◌, ◌≤◌, length};
ghost use Rattle.table_index.specs.Index.{sets_in};
ghost use Rattle.table_index.specs.Parse.{SpotFits, HeadFits, WordStored};
ghost use Rattle.table_index.specs.Parse.Terms.{LeafRead, TermReadBy, call_rest};

use table::{Head, Refusal, Spot, TermEnd, number_at};
use table_index::layout;

// Stores term n, whose right side, if it has one, has the number `right`.
pub fn store_term(work: &mut [u64], n: usize, h: Head, right: usize)
    requires { (length work.old ≡ 8192) × (n < 1024) × (right ≤ 1024) × HeadFits h }
    ensures { WordStored h n right work.old work.new }
{
    let s = h.spot;
    let low = h.kind
        + h.parameter * layout::PARAMETER_UNIT
        + s.parallel * layout::PARALLEL_UNIT
        + s.entry * layout::ENTRY_UNIT
        + s.prefixes * layout::PREFIXES_UNIT
        + s.own * layout::OWN_UNIT;
    work[layout::TERMS_AT + n] = low
        + right as u64 * layout::RIGHT_UNIT
        + h.target * layout::TARGET_UNIT;
}

// A term without terms in it, whose numbers end before `next`.
pub fn read_leaf(work: &mut [u64], n: usize, h: Head, next: usize) -> Result<TermEnd, Refusal>
    requires { (length work.old ≡ 8192) × (n < 1024) × HeadFits h }
    ensures { LeafRead h n next work.old work.new result }
{
    store_term(work, n, h, n + 1);
    Ok(TermEnd { next, terms: n + 1 })
}

// The call, number n, whose kind stands at a place.
pub fn read_call(
    list: &[u16],
    work: &mut [u64],
    at: usize,
    n: usize,
    spot: Spot,
) -> Result<TermEnd, Refusal>
    requires work_len { (length work.old ≡ 8192) × (at < length list.now) }
    requires n_bound { (n < 1024) × SpotFits spot 0 }
    ensures { TermReadBy call_rest (sets_in list.now) list.now spot n at (at + 1)
        work.old work.new result }
{
    let p = at + 1;
    let d = number_at(list, p)?;
    read_leaf(
        work,
        n,
        Head {
            kind: 5,
            parameter: 0,
            target: d as u64,
            spot,
        },
        p + 1,
    )
}
