// A receiver takes slots, each arrived or missed, and hands out rows.
ghost use Rattle.std.specs.Prelude.{◌+◌, ◌≤◌};

use crate::table::SlotTable;
use crate::tally::Tally;
use code::Sheet;
use line::SymbolLine;

mod calls;
mod driving;
mod mending;

pub use calls::window_len;

#[derive(Drop)]
pub struct Receiver<'w, S> {
    sheet: Sheet,
    counters: Tally,
    table: SlotTable,
    line: SymbolLine<'w, S>,
    ghost top: { counters.slots ≤ 1000000 },
    ghost rows: { (counters.whole + counters.mended) + counters.lost ≤ counters.slots },
}
