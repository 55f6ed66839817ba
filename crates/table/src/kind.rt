// The kinds of terms. `specs/Kind.antt` says which number stands for which.
ghost use Rattle.std.specs.Prelude.{◌≡◌, ◌<◌, MatchOption};
ghost use Rattle.table.specs.Kind.{kind_number};

#[derive(Clone, Copy, PartialEq, Eq)]
pub enum Kind {
    Stop,
    Fail,
    Prefix,
    Choice,
    Parallel,
    Call,
}

impl Kind {
    // The kind that a number stands for: none above 5.
    pub fn of(number: u64) -> Option<Kind>
        ensures { MatchOption result (5 < number) (λ kind. number ≡ kind_number kind) }
    {
        match number {
            0 => Some(Kind::Stop),
            1 => Some(Kind::Fail),
            2 => Some(Kind::Prefix),
            3 => Some(Kind::Choice),
            4 => Some(Kind::Parallel),
            5 => Some(Kind::Call),
            6..=u64::MAX => None,
        }
    }

    // The number that stands for a kind.
    pub fn number(self) -> u64
        ensures { result ≡ kind_number self }
    {
        match self {
            Kind::Stop => 0,
            Kind::Fail => 1,
            Kind::Prefix => 2,
            Kind::Choice => 3,
            Kind::Parallel => 4,
            Kind::Call => 5,
        }
    }
}
