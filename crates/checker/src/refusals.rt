// Why a table, a size, a text or an output is refused.
ghost use Rattle.std.specs.Prelude.{◌≡◌};
ghost use Rattle.checker.specs.Refusals.{number_of, place_of};

// The rule that is broken, and the place where that shows; of an output that is too short, how long it has to be.
#[derive(Clone, Copy, PartialEq, Eq)]
pub enum Refusal {
    Unread,
    Unmarked,
    Count(usize),
    Length,
    UnknownQuantifier(usize),
    TooManySets(usize),
    BadNode(usize),
    BadRoot(usize),
    TooShort(usize),
    LargeSize,
    OverNumbers(usize),
    LargeBound(usize),
    LargeNumber,
    Unwritten,
}

impl Refusal {
    // By this number a user is told the rule.
    #[tactic(auto, unfolding(crate::specs::Refusals::number_of))]
    pub fn number(self) -> usize
        ensures { result ≡ number_of self }
    {
        match self {
            Refusal::Unread => 0,
            Refusal::Unmarked => 1,
            Refusal::Count(_) => 2,
            Refusal::Length => 3,
            Refusal::UnknownQuantifier(_) => 4,
            Refusal::TooManySets(_) => 5,
            Refusal::BadNode(_) => 6,
            Refusal::BadRoot(_) => 7,
            Refusal::TooShort(_) => 8,
            Refusal::LargeSize => 9,
            Refusal::OverNumbers(_) => 10,
            Refusal::LargeBound(_) => 11,
            Refusal::LargeNumber => 12,
            Refusal::Unwritten => 21,
        }
    }

    // 0 where a rule has no place.
    #[tactic(auto, unfolding(crate::specs::Refusals::place_of))]
    pub fn place(self) -> usize
        ensures { result ≡ place_of self }
    {
        match self {
            Refusal::Count(place)
            | Refusal::UnknownQuantifier(place)
            | Refusal::TooManySets(place)
            | Refusal::BadNode(place)
            | Refusal::BadRoot(place)
            | Refusal::TooShort(place)
            | Refusal::OverNumbers(place)
            | Refusal::LargeBound(place) => place,
            Refusal::Unread
            | Refusal::Unmarked
            | Refusal::Length
            | Refusal::LargeSize
            | Refusal::LargeNumber
            | Refusal::Unwritten => 0,
        }
    }
}
