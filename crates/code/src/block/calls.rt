ghost use Rattle.std.specs.Prelude.{◌≡◌, ◌-◌};
ghost use Rattle.std.specs.Iterator.{at_most};
ghost use Rattle.code.specs.Sheets.{column};
ghost use Rattle.code.specs.Blocks.{size, BlocksFrom, NextBlock};

use super::{Block, Blocks};
use crate::sheet::Sheet;

impl Sheet {
    // The blocks of a row, from its first symbol on.
    pub fn blocks(self) -> Blocks
        ensures { BlocksFrom self 0 result }
    {
        Blocks {
            sheet: self,
            first: 0,
            lag: self.burst,
        }
    }
}

impl Block {
    // The symbols that the block has.
    pub fn len(self) -> usize
        ensures { result ≡ size self.sheet self.first }
    {
        self.sheet.parity.min(self.sheet.row - self.first) as usize
    }

    // The parity column of its first symbol: a row that is shorter than the parity stands at its right edge.
    pub fn column(self) -> usize
        ensures { result ≡ column self.sheet self.first }
    {
        self.sheet.parity.saturating_sub(self.sheet.row) as usize
    }
}

impl Iterator for Blocks {
    type Item = Block;

    ghost next_gives = { NextBlock };

    ghost remaining = { λ s. at_most (s.sheet.row - s.first) };

    fn next(&mut self) -> Option<Block> {
        let Blocks { sheet, first, lag } = *self;
        if sheet.row <= first {
            return None;
        }
        *self = Blocks {
            sheet,
            first: first + sheet.parity,
            lag: lag + sheet.burst,
        };
        Some(Block { sheet, first, lag })
    }
}
