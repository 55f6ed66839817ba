// What the function of the lot sheet for C gives (crate `monitor_c`) in lent words: its answer as a
// number with a count or a place. What a call returns and leaves is defined in `specs/Call.antt`.
#![tactic(auto)]

ghost use Rattle.sheet_words.specs.Call.{SheetTold};

use sheet::Sheet;

// The number to return; the count or the place goes into value.
pub fn tell_sheet(answer: Sheet, value: &mut u64) -> u32
    ensures { SheetTold answer result value.new }
{
    match answer {
        Ok(n) => {
            *value = n as u64;
            0
        }
        Err(r) => {
            *value = r.place as u64;
            u32::from(r.number)
        }
    }
}
