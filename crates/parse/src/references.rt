// Reading a set reference: a set number and, for a kind 1 set, a parameter.
ghost use Rattle.std.specs.Prelude.{◌≤◌, length};
ghost use Rattle.table_index.specs.Index.{sets_in};
ghost use Rattle.table_index.specs.Parse.{SetsReady, ReferenceRead};

use table::{Reference, Refusal, number_at};
use table_index::layout;

// The set reference at a place.
pub fn read_reference(
    list: &[u16],
    work: &[u64],
    sets: usize,
    at: usize,
) -> Result<Reference, Refusal>
    requires sets_ready { SetsReady list.now work.now sets }
    requires at_in_bounds { at ≤ length list.now }
    ensures { ReferenceRead (sets_in list.now) list.now at result }
{
    let s = number_at(list, at)? as usize;
    if sets <= s {
        return Err(Refusal {
            number: 5,
            place: at,
        });
    }
    let w = work[layout::SETS_AT + s];
    let p = at + 1;
    if w % 2 == 0 {
        return Ok(Reference {
            target: w / 2,
            parameter: 0,
            next: p,
        });
    }
    let k = number_at(list, p)?;
    if 3 < k {
        return Err(Refusal {
            number: 5,
            place: p,
        });
    }
    Ok(Reference {
        target: w / 2,
        parameter: k as u64 + 1,
        next: p + 1,
    })
}
