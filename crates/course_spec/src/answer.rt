// How an input came to its end, or why the program stopped before; and whether it has.
ghost use Rattle.std.specs.Prelude.{◌≡◌};
ghost use Rattle.course_spec.specs.declared.answer.Trouble.TheVariants.{Unread, Unwritten};

use input::{End, Failure};
use saying::{Said, Unsaid};
use state::State;
use std::fmt;
use std::fmt::Display;
use std::ops::ControlFlow;

// The input ended, with the last line that was said; or a refusal was said.
#[derive(Drop)]
pub enum Told {
    Ended(End, Said),
    Refused(Said),
}

// A read failed; or a line could not be written.
#[derive(Drop)]
pub enum Trouble {
    Unread(Failure),
    Unwritten(Unsaid),
}

impl From<Failure> for Trouble {
    ghost from_gives = { λ f r. r ≡ Unread f };

    fn from(failure: Failure) -> Trouble {
        Trouble::Unread(failure)
    }
}

impl From<Unsaid> for Trouble {
    ghost from_gives = { λ u r. r ≡ Unwritten u };

    fn from(unsaid: Unsaid) -> Trouble {
        Trouble::Unwritten(unsaid)
    }
}

// Its message.
impl Display for Trouble {
    fn fmt<W: fmt::Write>(&self, f: &mut fmt::Formatter<W>) -> fmt::Result {
        match self {
            Trouble::Unread(failure) => write!(f, "{failure}"),
            Trouble::Unwritten(unsaid) => write!(f, "{unsaid}"),
        }
    }
}

// How an input came to its end, or why the program stopped before.
pub type Ending = Result<Told, Trouble>;

// A monitor that goes on, with the last line that was said; or the end.
pub type Course = ControlFlow<Ending, (State, Said)>;
