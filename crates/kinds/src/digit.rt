// Decimal digits, summed modulo ten.
ghost use Rattle.std.specs.Prelude.{◌≡◌, refl};
ghost use Rattle.kinds.specs.Digits.{digits, digit_form, digit};
ghost use Rattle.kinds.specs.Numbers.{symbol_of-number, belongs_to_one};

use crate::printed::Printed;
use crate::symbol::Symbol;

#[derive(Clone, Copy, Debug, PartialEq, Eq)]
pub enum Digit {
    D0,
    D1,
    D2,
    D3,
    D4,
    D5,
    D6,
    D7,
    D8,
    D9,
}

impl Digit {
    // The digit that is left of `n` when tens are taken away. By cases, since no cast makes an enum of a number.
    pub fn of_rest(n: u32) -> Digit
        ensures { result ≡ digit n }
    {
        match n % 10 {
            0 => Digit::D0,
            1 => Digit::D1,
            2 => Digit::D2,
            3 => Digit::D3,
            4 => Digit::D4,
            5 => Digit::D5,
            6 => Digit::D6,
            7 => Digit::D7,
            8 => Digit::D8,
            _ => Digit::D9,
        }
    }
}

impl Symbol for Digit {
    ghost kind = { digits };

    fn zero() -> Digit {
        Digit::of_rest(0)
    }

    fn sum(self, other: Digit) -> Digit {
        Digit::of_rest(self as u32 + other as u32)
    }

    fn difference(self, other: Digit) -> Digit {
        Digit::of_rest(self as u32 + (10 - other as u32))
    }

    fn nonzero() -> Digit {
        Digit::of_rest(1)
    }
}

impl Printed for Digit {
    const LETTER: char = 'D';

    const WIDTH: usize = 2;

    const TOP: u32 = 9;

    ghost form = { digit_form };

    ghost LETTER = { digit_form.layout.letter };

    ghost WIDTH = { digit_form.layout.width };

    ghost TOP = { digit_form.layout.top };

    ghost constants = { (refl, refl, refl) };

    ghost round_trip = { symbol_of-number digit_form };

    ghost one_symbol = { belongs_to_one digit_form };

    fn number(self) -> u32 {
        self as u32
    }

    fn of_number(n: u32) -> Option<Digit> {
        if n <= Self::TOP {
            Some(Digit::of_rest(n))
        } else {
            None
        }
    }
}
