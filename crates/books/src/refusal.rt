// Why an account declines an entry or a report, and by which number.
ghost use Rattle.std.specs.Prelude.{◌≡◌};
ghost use Rattle.books.specs.Numbers.{refusal_number, refusal_short};

#[derive(Clone, Copy, Debug, PartialEq, Drop)]
pub enum Refusal {
    WrongPhase,
    Unknown,
    InUse,
    OutOfRange,
    OutsideBand,
    TooManyLots,
    NoRoom,
    Short { dollars: u64 },
    CallStands,
    SmallBuffer,
}

// A match and no `as u8`: one case has a value.
impl From<Refusal> for u8 {
    ghost from_gives = { λ refusal number. number ≡ refusal_number refusal };

    fn from(refusal: Refusal) -> u8 {
        match refusal {
            Refusal::WrongPhase => 3,
            Refusal::Unknown => 4,
            Refusal::InUse => 5,
            Refusal::OutOfRange => 6,
            Refusal::OutsideBand => 7,
            Refusal::TooManyLots => 8,
            Refusal::NoRoom => 9,
            Refusal::Short { .. } => 10,
            Refusal::CallStands => 11,
            Refusal::SmallBuffer => 12,
        }
    }
}

impl Refusal {
    // The missing dollars; 0 where none are missing, and no Option, since an answer prints it.
    pub fn short(&self) -> u64
        ensures { result ≡ refusal_short self.now }
    {
        match self {
            Refusal::Short { dollars } => *dollars,
            _ => 0,
        }
    }
}
