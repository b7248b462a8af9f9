// The numbers of a code. No sheet outside these limits exists.
ghost use Rattle.std.specs.Prelude.{◌≡◌, ◌+◌, ◌-◌, ◌*◌, ◌/◌, ◌≤◌};

use thiserror::Error;

mod calls;

#[derive(Clone, Copy, Debug, PartialEq, Eq)]
pub struct Sheet {
    // the burst length L
    pub burst: u32,
    // the symbols of a row, k
    pub row: u32,
    // the parity symbols of a slot, r
    pub parity: u32,
    // the slots that a row waits until it is handed out, T = L × ⌈k / r⌉
    pub delay: u32,
    ghost bursts: { (1 ≤ burst) × (burst ≤ 32) },
    ghost rows: { (1 ≤ row) × (row ≤ 48) },
    ghost parities: { (1 ≤ parity) × (parity ≤ 16) },
    ghost waits: { delay ≡ burst * ((row + (parity - 1)) / parity) },
    ghost few: { delay ≤ 256 },
}

// Why no sheet has these numbers.
#[derive(Clone, Copy, Debug, PartialEq, Eq, Error)]
pub enum SheetRefusal {
    #[error("the burst length is not one of 1 to 32")]
    Burst = 7,
    #[error("the symbols of a row are not 1 to 48")]
    Row = 8,
    #[error("the parity symbols of a slot are not 1 to 16")]
    Parity = 9,
    #[error("a row would wait longer than 256 slots")]
    Delay = 10,
}
