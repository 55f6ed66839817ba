// One window of a timetable, in minutes of the week.
ghost use Rattle.std.specs.Prelude.{◌≡◌, ◌<◌};
ghost use Rattle.timetable_spec.specs.Timetable.{week, good_window, holds, begins_by};
ghost use Rattle.timetable_spec.specs.Timetable.{distance as distanceTo};

use crate::WEEK;

// Where the last window or gap of the week ends.
pub const WEEK_END: u16 = 10080;

// In how many minutes from a minute of the week on another one comes next.
#[tactic(auto, unfolding(timetable_spec::specs::Timetable::distance))]
fn distance(from: u64, to: u16) -> u64
    requires { from < week }
    ensures { result ≡ distanceTo from to }
{
    let p = u64::from(to);
    if from < p { p - from } else { p + WEEK - from }
}

// From the first minute, included, to the last one, excluded.
#[derive(Clone, Copy)]
pub struct Window {
    pub first: u16,
    pub last: u16,
}

impl Window {
    // Whether it is a good one that begins at `floor` or later.
    #[tactic(auto, unfolding(timetable_spec::specs::Timetable::good_window))]
    pub fn good(self, floor: u16) -> bool
        ensures { result ≡ good_window floor self.first self.last }
    {
        floor <= self.first && self.first < self.last && self.last <= WEEK_END
    }

    // Whether it holds a minute of the week.
    #[tactic(auto, unfolding(timetable_spec::specs::Timetable::holds))]
    pub fn holds(self, minute: u64) -> bool
        ensures { result ≡ holds self.first self.last minute }
    {
        u64::from(self.first) <= minute && minute < u64::from(self.last)
    }

    // Whether it is not empty and begins within some minutes.
    #[tactic(auto, unfolding(timetable_spec::specs::Timetable::begins_by))]
    pub fn begins_by(self, from: u64, minutes: u64) -> bool
        requires { from < week }
        ensures { result ≡ begins_by self.first self.last from minutes }
    {
        self.first < self.last && distance(from, self.first) <= minutes
    }
}
