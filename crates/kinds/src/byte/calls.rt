ghost use Rattle.std.specs.Prelude.{◌≡◌, refl};
ghost use Rattle.kinds.specs.Bytes.{bytes, byte_form};
ghost use Rattle.kinds.specs.Numbers.{symbol_of-number, belongs_to_one};

use super::Byte;
use crate::printed::Printed;
use crate::symbol::Symbol;

impl Byte {
    pub fn new(value: u8) -> Byte
        ensures { result.value ≡ value }
    {
        Byte { value }
    }
}

impl Symbol for Byte {
    ghost kind = { bytes };

    fn zero() -> Byte {
        Byte { value: 0 }
    }

    fn sum(self, other: Byte) -> Byte {
        Byte {
            value: self.value ^ other.value,
        }
    }

    // Exclusive or undoes itself.
    fn difference(self, other: Byte) -> Byte {
        self.sum(other)
    }

    fn nonzero() -> Byte {
        Byte { value: 1 }
    }
}

impl Printed for Byte {
    const LETTER: char = 'B';

    const WIDTH: usize = 4;

    const TOP: u32 = 255;

    ghost form = { byte_form };

    ghost LETTER = { byte_form.layout.letter };

    ghost WIDTH = { byte_form.layout.width };

    ghost TOP = { byte_form.layout.top };

    ghost constants = { (refl, refl, refl) };

    ghost round_trip = { symbol_of-number byte_form };

    ghost one_symbol = { belongs_to_one byte_form };

    fn number(self) -> u32 {
        self.value as u32
    }

    fn of_number(n: u32) -> Option<Byte> {
        if n <= Self::TOP {
            Some(Byte { value: n as u8 })
        } else {
            None
        }
    }
}
