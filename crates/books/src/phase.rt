// The phases of a day and the margin call, with their numbers.
ghost use Rattle.std.specs.Prelude.{◌≡◌};
ghost use Rattle.books.specs.Numbers.{phase_number, call_number};

// A day runs through them in this order and begins again.
#[derive(Clone, Copy, Debug, PartialEq, Drop)]
pub enum Phase {
    Before = 0,
    Regular = 1,
    Settled = 2,
    AfterHours = 3,
}

// Here and below each enum has an impl of its own: one that a macro of the repository writes is refused.
impl From<Phase> for u8 {
    ghost from_gives = { λ phase number. number ≡ phase_number phase };

    fn from(phase: Phase) -> u8 {
        phase as u8
    }
}

// Whether more margin has been called for, and whether its deadline has passed.
// No call is a case and no Option: each case has a number.
#[derive(Clone, Copy, Debug, PartialEq, Drop)]
pub enum Call {
    NoCall = 0,
    Standing = 1,
    Overdue = 2,
}

impl From<Call> for u8 {
    ghost from_gives = { λ call number. number ≡ call_number call };

    fn from(call: Call) -> u8 {
        call as u8
    }
}
