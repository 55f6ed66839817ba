// Whether the table in force changes between two minutes. It does where a window of the table that
// is not in force at the first of them begins by the second: a window of the timetable in everyday
// hours, a gap between its windows in wash hours.
ghost use Rattle.std.specs.Prelude.{◌≡◌, ◌<◌};
ghost use Rattle.timetable_spec.specs.Timetable.{week, begins, gaps_from};
ghost use Rattle.timetable_spec.specs.Timetable.{changes as changed};

use crate::WEEK;
use crate::force::in_force;
use crate::window::{WEEK_END, Window};

// Whether some window begins within some minutes.
fn window_begins(windows: &[u16], from: u64, minutes: u64) -> bool
    requires { from < week }
    ensures { result ≡ begins windows.now from minutes }
{
    for i in 0..windows.len() / 2 {
        let window = Window {
            first: windows[2 * i],
            last: windows[2 * i + 1],
        };
        if window.begins_by(from, minutes) {
            return true;
        }
    }
    false
}

// Whether some gap between the windows begins within some minutes.
fn gap_begins(windows: &[u16], from: u64, minutes: u64) -> bool
    requires { from < week }
    ensures { result ≡ begins (gaps_from 0 windows.now) from minutes }
{
    let mut end = 0;
    let mut i = 0;
    while i + 1 < windows.len() {
        let gap = Window {
            first: end,
            last: windows[i],
        };
        if gap.begins_by(from, minutes) {
            return true;
        }
        end = windows[i + 1];
        i += 2;
    }
    let gap = Window {
        first: end,
        last: WEEK_END,
    };
    gap.begins_by(from, minutes)
}

// Whether the table in force changes after the last minute, up to and including the present one.
pub fn changes(windows: &[u16], last: u64, present: u64) -> bool
    ensures { result ≡ changed windows.now last present }
{
    let minutes = present.saturating_sub(last);
    if in_force(windows, last) {
        return gap_begins(windows, last % WEEK, minutes);
    }
    window_begins(windows, last % WEEK, minutes)
}
