// The lines of a refusal and of a record.
ghost use Rattle.std.specs.Prelude.{◌≡◌};
ghost use Rattle.state.specs.Record.{state_of};
ghost use Rattle.line_spec.specs.Line.{state_line};
ghost use Rattle.line_spec.specs.Line.{refused as refusedAt};
ghost use Rattle.format.specs.Line.{line_said};

use crate::answer::Line;
use state::{State, Verdict};
use table::Refusal;

// The line of a refusal.
pub fn refused(refusal: Refusal) -> Line
    ensures { line_said result ≡ refusedAt refusal.number refusal.place }
{
    Line::Refused {
        number: refusal.number,
        place: refusal.place as u64,
    }
}

// The line of a monitor where the input ends.
pub fn conclude(state: State) -> Line
    ensures { line_said result ≡ state_line (state_of state) }
{
    let taken = state.taken;
    match state.verdict {
        Verdict::Running => Line::Running {
            taken,
            residuals: state.count,
        },
        Verdict::Failed(place) => Line::Failed { place, taken },
    }
}
