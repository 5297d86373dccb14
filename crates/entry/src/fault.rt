// Why a line is no entry, and by which numbers it is declined.
ghost use Rattle.std.specs.Prelude.{◌≡◌};
ghost use Rattle.entry.specs.Faults.{decline_of};
ghost use Rattle.entry.specs.declared.fault.LineFault.TheVariants.{Figure};

use figure::FigureFault;

// A figure's fault, and the column where the figure begins.
#[derive(Clone, Copy, Debug, PartialEq, Drop)]
pub struct Misfigure {
    pub at: usize,
    pub fault: FigureFault,
}

// A figure's fault carried whole, or a departure from the form of a line; columns count from 1.
#[derive(Clone, Copy, Debug, PartialEq, Drop)]
pub enum LineFault {
    Figure(Misfigure),
    Form { at: usize },
}

impl From<Misfigure> for LineFault {
    ghost from_gives = { λ f r. r ≡ Figure f };

    fn from(fault: Misfigure) -> LineFault {
        LineFault::Figure(fault)
    }
}

// A decline as it is told: its number, the layer that found it, the column in the line, the missing dollars. Plain numbers, since
// they are what an answer prints, 0 too where there is no column or no dollar; the kinds are the cases of the faults.
#[derive(Clone, Copy, Debug, PartialEq, Drop)]
pub struct Decline {
    pub number: u8,
    pub layer: u8,
    pub at: usize,
    pub short: u64,
}

impl From<LineFault> for Decline {
    ghost from_gives = { λ fault decline. decline ≡ decline_of fault };

    fn from(fault: LineFault) -> Decline {
        match fault {
            LineFault::Figure(figure) => Decline {
                number: 1,
                layer: 1,
                at: figure.at,
                short: 0,
            },
            LineFault::Form { at } => Decline {
                number: 2,
                layer: 2,
                at,
                short: 0,
            },
        }
    }
}
