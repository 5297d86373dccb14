// What the last two fields of a report say, with their numbers.
ghost use Rattle.std.specs.Prelude.{◌≡◌};
ghost use Rattle.books.specs.Numbers.{notice_number, due_number};

// What the customer is to be told.
// Nothing is a case and no Option: each case has a number.
#[derive(Clone, Copy, Debug, PartialEq, Drop)]
pub enum Notice {
    Quiet = 0,
    HighRisk = 1,
    CallStands = 2,
    CallOverdue = 3,
}

// Here and below each enum has an impl of its own: one that a macro of the repository writes is refused.
impl From<Notice> for u8 {
    ghost from_gives = { λ notice number. number ≡ notice_number notice };

    fn from(notice: Notice) -> u8 {
        notice as u8
    }
}

// Why lots are due to be closed.
// Not due is a case and no Option: each case has a number.
#[derive(Clone, Copy, Debug, PartialEq, Drop)]
pub enum Due {
    NotDue = 0,
    IndicatorLow = 1,
    CallMissed = 2,
}

impl From<Due> for u8 {
    ghost from_gives = { λ due number. number ≡ due_number due };

    fn from(due: Due) -> u8 {
        due as u8
    }
}
