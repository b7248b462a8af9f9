// A row taken block by block: one slot carries all symbols of a block, in parity columns side by side.
ghost use Rattle.std.specs.Prelude.{◌≡◌, ◌+◌, ◌*◌, ◌/◌, ◌%◌, ◌<◌, ◌≤◌};

use crate::sheet::Sheet;

mod calls;

// The block of a row on this sheet that begins with symbol `first`, which is carried `lag` slots after its row.
#[derive(Clone, Copy, Debug, PartialEq, Eq)]
pub struct Block {
    pub sheet: Sheet,
    pub first: u32,
    pub lag: u32,
    ghost within: { first < sheet.row },
    ghost whole: { first % sheet.parity ≡ 0 },
    ghost carried: { lag ≡ (1 + first / sheet.parity) * sheet.burst },
}

// The blocks of a row, of which the next one begins with symbol `first`.
#[derive(Drop)]
pub struct Blocks {
    sheet: Sheet,
    first: u32,
    lag: u32,
    ghost near: { first < sheet.row + sheet.parity },
    ghost whole: { first % sheet.parity ≡ 0 },
    ghost carried: { lag ≡ (1 + first / sheet.parity) * sheet.burst },
}
