// A sender takes rows; wound down, it gives tail packets and is ended.
use crate::count::{RowCount, SlotCount};
use code::Sheet;
use line::SymbolLine;

mod calls;

pub use calls::window_len;

#[derive(Drop)]
pub struct Sender<'w, S> {
    sheet: Sheet,
    count: RowCount,
    line: SymbolLine<'w, S>,
}

// Not `Drop`: a winding sender has to be ended.
pub struct WindingSender<'w, S> {
    sheet: Sheet,
    count: SlotCount,
    line: SymbolLine<'w, S>,
}

// What the end of a winding sender tells, with the window that was lent.
#[derive(Drop)]
pub struct Sent<'w, S> {
    pub rows: u32,
    pub tails: u32,
    pub window: &'w mut [S],
}
