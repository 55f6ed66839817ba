// Which table is in force at a minute.
ghost use Rattle.std.specs.Prelude.{◌≡◌};
ghost use Rattle.timetable_spec.specs.Timetable.{wash_at, in_force};

use crate::WEEK;
use crate::window::Window;

// Whether some window holds a minute of the week.
fn wash_at(windows: &[u16], minute: u64) -> bool
    ensures { result ≡ wash_at windows.now minute }
{
    for i in 0..windows.len() / 2 {
        let window = Window {
            first: windows[2 * i],
            last: windows[2 * i + 1],
        };
        if window.holds(minute) {
            return true;
        }
    }
    false
}

// Whether the table for wash hours is in force at an absolute minute.
pub fn in_force(windows: &[u16], minute: u64) -> bool
    ensures { result ≡ in_force windows.now minute }
{
    wash_at(windows, minute % WEEK)
}
