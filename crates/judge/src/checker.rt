// The judging of a number list: refusals 3, 5, 6, 7, 8, 9, and 2 after them.
ghost use Rattle.std.specs.Prelude.{◌≡◌, length};
ghost use Rattle.table_index.specs.Parse.{Parsed};
ghost use Rattle.table_index.specs.Judging.{JudgeDone, CheckDone, Checked};

use crate::branches::first_excess;
use crate::places::byte_place;
use crate::references::first_bad_reference;
use crate::widths::first_wide_level;
use slots::clear_all;
use table::Refusal;

// Refusals 7, 8 and 9 of a parsed table.
fn judge_parsed(list: &[u16], work: &mut [u64]) -> Result<(), Refusal>
    requires { Parsed list.now work.old }
    ensures { JudgeDone list.now work.new result }
{
    if let Some(place) = first_bad_reference(list, work) {
        return Err(Refusal { number: 7, place });
    }
    if let Some(place) = first_wide_level(list, work) {
        return Err(Refusal { number: 8, place });
    }
    if let Some(place) = first_excess(list, work) {
        return Err(Refusal { number: 9, place });
    }
    Ok(())
}

// Everything but 2; on acceptance the index of the table stands in the work area.
pub fn judge(list: &[u16], work: &mut [u64]) -> Result<(), Refusal>
    requires { length work.old ≡ 8192 }
    ensures { JudgeDone list.now work.new result }
{
    parse::parse(list, work)?;
    judge_parsed(list, work)
}

// Whether a number list is a table, with a work area of the right length, which is overwritten and
// not cleared.
pub fn check_list(list: &[u16], work: &mut [u64]) -> Result<(), Refusal>
    requires { length work.old ≡ 8192 }
    ensures { CheckDone list.now work.new result }
{
    judge(list, work)?;
    if 16384 < byte_place(list, list.len()) {
        return Err(Refusal {
            number: 2,
            place: 0,
        });
    }
    Ok(())
}

// Whether a number list is a table; if so, its index stands in the work area, which otherwise is
// all zero. A work area that is not of 8,192 words is refused and kept.
pub fn check(list: &[u16], work: &mut [u64]) -> Result<(), Refusal>
    ensures { Checked list.now work.old work.new result }
{
    if work.len() != 8192 {
        return Err(Refusal {
            number: 1,
            place: 0,
        });
    }
    match check_list(list, work) {
        Ok(()) => Ok(()),
        Err(r) => {
            clear_all(work);
            Err(r)
        }
    }
}
