// Why a call on a sender or a receiver is refused. Each call has a list of its own, in the order in which it tests.
ghost use Rattle.std.specs.Prelude.{◌≡◌};
ghost use Rattle.code.specs.Refusals.{put_number, tail_number, slot_number};

use thiserror::Error;

// Putting a row.
#[derive(Clone, Copy, Debug, PartialEq, Eq, Error)]
pub enum PutRefusal {
    #[error("the window is too short")]
    Window = 11,
    #[error("the run has used all its slots")]
    Slots = 12,
    #[error("the row has the wrong length")]
    Row = 13,
    #[error("the place for the packet has the wrong length")]
    Place = 14,
}

// Drawing a tail packet.
#[derive(Clone, Copy, Debug, PartialEq, Eq, Error)]
pub enum TailRefusal {
    #[error("the window is too short")]
    Window = 11,
    #[error("the run has used all its slots")]
    Slots = 12,
    #[error("the place for the packet has the wrong length")]
    Place = 14,
    #[error("all tail packets have been given")]
    Tail = 15,
}

// Taking a slot.
#[derive(Clone, Copy, Debug, PartialEq, Eq, Error)]
pub enum SlotRefusal {
    #[error("the window is too short")]
    Window = 11,
    #[error("the run has used all its slots")]
    Slots = 12,
    #[error("the packet has the wrong length")]
    Packet = 13,
    #[error("the place for the row or for its marks has the wrong length")]
    Place = 14,
}

impl PutRefusal {
    pub fn number(self) -> u32
        ensures { result ≡ put_number self }
    {
        self as u32
    }
}

impl TailRefusal {
    pub fn number(self) -> u32
        ensures { result ≡ tail_number self }
    {
        self as u32
    }
}

impl SlotRefusal {
    pub fn number(self) -> u32
        ensures { result ≡ slot_number self }
    {
        self as u32
    }
}
