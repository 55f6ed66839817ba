// Whether a list is a timetable.
ghost use Rattle.std.specs.Prelude.{◌≡◌};
ghost use Rattle.timetable_spec.specs.Timetable.{good_timetable};

use crate::window::Window;

// Whether a list is a timetable: windows one after the other, none of them empty, and no number
// left over.
pub fn good_timetable(windows: &[u16]) -> bool
    ensures { result ≡ good_timetable windows.now }
{
    let mut floor = 0;
    let mut i = 0;
    while i + 1 < windows.len() {
        let window = Window {
            first: windows[i],
            last: windows[i + 1],
        };
        if !window.good(floor) {
            return false;
        }
        floor = window.last;
        i += 2;
    }
    i == windows.len()
}
