// The letters that stand for a kind, a right, a side and an effect.
ghost use Rattle.std.specs.Prelude.{◌≡◌, ℕ, Option};
ghost use Rattle.entry.specs.Letters.{kind_of, right_of, side_of, effect_of};

use crate::types::{Effect, Kind, Right, Side};

// Cases that a letter each stands for. No `TryFrom<char>`: a field's definition takes a function (`meant`), and
// `TryFrom` gives generic code only a relation.
pub(crate) trait Letter: Sized {
    ghost meant: { ℕ → Option Self };

    fn of_letter(letter: char) -> Option<Self>
        ensures { result ≡ meant letter };
}

impl Letter for Kind {
    ghost meant = { kind_of };

    fn of_letter(letter: char) -> Option<Kind> {
        match letter {
            'F' => Some(Kind::Futures),
            'O' => Some(Kind::Options),
            _ => None,
        }
    }
}

impl Letter for Right {
    ghost meant = { right_of };

    fn of_letter(letter: char) -> Option<Right> {
        match letter {
            'N' => Some(Right::Neither),
            'C' => Some(Right::Call),
            'P' => Some(Right::Put),
            _ => None,
        }
    }
}

impl Letter for Side {
    ghost meant = { side_of };

    fn of_letter(letter: char) -> Option<Side> {
        match letter {
            'B' => Some(Side::Buy),
            'S' => Some(Side::Sell),
            _ => None,
        }
    }
}

impl Letter for Effect {
    ghost meant = { effect_of };

    fn of_letter(letter: char) -> Option<Effect> {
        match letter {
            'O' => Some(Effect::Opening),
            'C' => Some(Effect::Closing),
            _ => None,
        }
    }
}
