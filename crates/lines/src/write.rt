// Why a line is not written. The writers test in this order.
ghost use Rattle.std.specs.Prelude.{◌≡◌};
ghost use Rattle.lines.specs.Writing.{write_number};

use thiserror::Error;

// Each has the number of its refusal: a number is above its field's top; a row, packet or mark list has the wrong length; the place has.
#[derive(Clone, Copy, Debug, PartialEq, Eq, Error)]
pub enum WriteRefusal {
    #[error("a number is above the top of its field")]
    Number = 5,
    #[error("a list has not the length that the line needs")]
    Length = 13,
    #[error("the place has not the length of the line")]
    Place = 14,
}

impl WriteRefusal {
    pub fn number(self) -> u32
        ensures { result ≡ write_number self }
    {
        self as u32
    }
}
