// Along the transitions that are known.
ghost use Rattle.std.specs.Prelude.{◌≡◌, suc, ◌+◌, ◌*◌, ◌≤◌, ◌<◌, length, get_or, IfSome};
ghost use Rattle.monitor_spec.specs.Feed.{counter_most};
ghost use Rattle.met_sets.specs.Runs.{KeptSet, FollowedBy};

use crate::sets::{MetSets, count_of};
use state::State;

// The record and the set that a run has come to, and at which event.
#[derive(Clone, Copy)]
pub struct Followed {
    pub state: State,
    pub set: usize,
    pub place: usize,
}

// The number of the set that follows set i after event e; none where that is not known, or the event
// is refused (11, or 12 with so many events taken).
fn known(alphabet: usize, next: &[u8], i: usize, e: u8, taken: u64) -> Option<usize>
    requires { i * alphabet + alphabet ≤ length next.now }
    ensures { IfSome result (λ j. (e < alphabet) × (taken < counter_most)
        × (get_or next.now (i * alphabet + e) 0 ≡ suc j)) }
{
    let event = e as usize;
    if alphabet <= event || taken == u64::MAX {
        return None;
    }
    (next[i * alphabet + event] as usize).checked_sub(1)
}

// Takes the events from a place on whose transitions are known, up to another place: from a record
// and a set, whose areas need not be laid out. What is reached stands in locals: a `Followed` made
// anew at each event took ten instructions more.
pub fn follow(
    alphabet: usize,
    starts: &[usize],
    next: &[u8],
    events: &[u8],
    from: Followed,
    to: usize,
) -> Followed
    requires kept_set { KeptSet alphabet starts.now next.now from.set }
    requires place_le_to { (from.place ≤ to) × (to ≤ length events.now) }
    ensures { FollowedBy alphabet starts.now next.now events.now
        from.state from.set from.place to result }
{
    let mut state = from.state;
    let mut set = from.set;
    for i in from.place..to {
        let Some(following) = known(alphabet, next, set, events[i], state.taken) else {
            return Followed {
                state,
                set,
                place: i,
            };
        };
        set = following;
        state = state.after(count_of(starts, set) as u64);
    }
    Followed {
        state,
        set,
        place: to,
    }
}

impl MetSets {
    // The same along the transitions of these sets.
    pub fn follow(&self, events: &[u8], from: Followed, to: usize) -> Followed
        requires set_bound { from.set < self.now.count }
        requires place_le_to { (from.place ≤ to) × (to ≤ length events.now) }
        ensures { FollowedBy self.now.alphabet self.now.starts self.now.next events.now
            from.state from.set from.place to result }
    {
        follow(self.alphabet, &self.starts, &self.next, events, from, to)
    }
}
