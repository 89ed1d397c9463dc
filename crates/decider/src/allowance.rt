ghost use Rattle.std.specs.Prelude.{◌≡◌, ◌+◌, ◌^◌, ◌<◌};
ghost use Rattle.decider.specs.Answer.{later};

// What is left of an allowance, and the steps that it has paid for.
#[derive(Clone, Copy)]
pub struct Allowance {
    pub left: u64,
    pub taken: u64,
}

impl Allowance {
    // One step is paid for.
    pub fn spend(self) -> Allowance
        requires left_nonzero { 0 < self.left }
        requires taken_bound { self.left + self.taken < 2 ^ 64 }
        ensures { result ≡ later 1 self }
    {
        Allowance {
            left: self.left - 1,
            taken: self.taken + 1,
        }
    }
}

// A truth, and the rest of the allowance.
#[derive(Clone, Copy)]
pub struct Found {
    pub truth: bool,
    pub rest: Allowance,
}

// The allowance did not suffice: all of it is taken.
#[derive(Clone, Copy)]
pub struct Spent {
    pub taken: u64,
}

pub type Reply = Result<Found, Spent>;
