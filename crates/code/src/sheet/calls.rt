ghost use Rattle.std.specs.Prelude.{◌≡◌};
ghost use Rattle.code.specs.Sheets.{n};
ghost use Rattle.code.specs.Making.{Makes, sheet_refused, refusal_number};

use super::{Sheet, SheetRefusal};

impl Sheet {
    // The sheet with these numbers, or the first reason why there is none.
    pub fn new(burst: u32, row: u32, parity: u32) -> Result<Sheet, SheetRefusal>
        ensures { Makes burst row parity (sheet_refused burst row parity) result }
    {
        if !(1..=32).contains(&burst) {
            return Err(SheetRefusal::Burst);
        }
        if !(1..=48).contains(&row) {
            return Err(SheetRefusal::Row);
        }
        if !(1..=16).contains(&parity) {
            return Err(SheetRefusal::Parity);
        }
        let blocks = row.div_ceil(parity);
        let delay = burst * blocks;
        if 256 < delay {
            return Err(SheetRefusal::Delay);
        }
        Ok(Sheet {
            burst,
            row,
            parity,
            delay,
        })
    }

    // The symbols of a packet, n = k + r.
    pub fn packet_len(self) -> usize
        ensures { result ≡ n self }
    {
        (self.row + self.parity) as usize
    }
}

impl SheetRefusal {
    pub fn number(self) -> u32
        ensures { result ≡ refusal_number self }
    {
        self as u32
    }
}
