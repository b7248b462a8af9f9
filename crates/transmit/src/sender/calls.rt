ghost use Rattle.std.specs.Prelude.{◌≡◌, ◌+◌, [], length};
ghost use Rattle.std.specs.Result.{result_err};
ghost use Rattle.code.specs.Packets.{packet};
ghost use Rattle.transmit.specs.Keeping.{need, kept, with_row};
ghost use Rattle.transmit.specs.Refusing.{put_refused, tail_refused};
ghost use Rattle.transmit.specs.Calls.{room, SenderMade, PutCall, WindCall, TailCall, EndCall, putting, drawing};
ghost use Rattle.transmit.specs.Law.{Lawful};

use super::{Sender, Sent, WindingSender};
use crate::count::RowCount;
use crate::parities::write_parities;
use code::{PutRefusal, Sheet, TailRefusal};
use kinds::Symbol;
use line::{SymbolLine, clear};

// How long a window a sender on this sheet needs.
pub fn window_len(sheet: Sheet) -> usize
    ensures { result ≡ need sheet }
{
    sheet.delay as usize * sheet.row as usize
}

impl<'w, S: Symbol> Sender<'w, S> {
    // A sender on this sheet over a window of any length.
    pub fn new(sheet: Sheet, window: &'w mut [S]) -> Sender<'w, S>
        ensures made { SenderMade sheet window.old result }
        ensures same { result.line.window.ghost_name ≡ window.entry.ghost_name }
        ensures law { Lawful S.kind sheet window.old result }
    {
        Sender {
            sheet,
            count: RowCount::new(),
            line: SymbolLine::over(window, window_len(sheet)),
        }
    }

    // Puts the next row, and writes the packet of its slot.
    pub fn put(&mut self, row: &[S], place: &mut [S]) -> Result<(), PutRefusal>
        ensures { PutCall S.kind self.old self.new (putting row.now place.old place.new result) }
    {
        self.check_put(row.len(), place.len())?;
        let (symbols, parities) = place.split_at_mut(row.len());
        symbols.copy_from_slice(row);
        write_parities(&self.line, self.sheet, self.count.rows, parities);
        self.line.push_all(row);
        self.count.add_row();
        Ok(())
    }

    // Whether a row of so many symbols can be put, with a place of so many: the first refusal that holds.
    fn check_put(&self, row: usize, place: usize) -> Result<(), PutRefusal>
        ensures { result_err result ≡ put_refused self.now.sheet (room self.now.line) self.now.count.rows row place }
    {
        if self.line.len() < window_len(self.sheet) {
            Err(PutRefusal::Window)
        } else if 1_000_000 <= self.count.rows {
            Err(PutRefusal::Slots)
        } else if row != self.sheet.row as usize {
            Err(PutRefusal::Row)
        } else if place != self.sheet.packet_len() {
            Err(PutRefusal::Place)
        } else {
            Ok(())
        }
    }

    // No more rows: from here on only tail packets.
    pub fn wind_down(self) -> WindingSender<'w, S>
        ensures { WindCall S.kind self.entry result }
    {
        let Sender { sheet, count, line } = self;
        WindingSender {
            sheet,
            count: count.wound(),
            line,
        }
    }
}

impl<'w, S: Symbol> WindingSender<'w, S> {
    // Writes the next tail packet, whose row is zeros.
    pub fn tail(&mut self, place: &mut [S]) -> Result<(), TailRefusal>
        ensures { TailCall S.kind self.old self.new (drawing place.old place.new result) }
    {
        self.check_tail(place.len())?;
        let slots = self.count.rows + self.count.tails;
        let row = self.sheet.row as usize;
        let (symbols, parities) = place.split_at_mut(row);
        clear(symbols);
        write_parities(&self.line, self.sheet, slots, parities);
        self.line.push_zeros(row);
        self.count.add_tail();
        Ok(())
    }

    // Whether the next tail packet can be drawn, with a place of so many symbols: the first refusal that holds. Not one with
    // `check_put`, since each call names only what it can refuse.
    fn check_tail(&self, place: usize) -> Result<(), TailRefusal>
        ensures { result_err result ≡ tail_refused self.now.sheet (room self.now.line) (self.now.count.rows + self.now.count.tails) self.now.count.tails place }
    {
        if self.line.len() < window_len(self.sheet) {
            Err(TailRefusal::Window)
        } else if 1_000_000 <= self.count.rows + self.count.tails {
            Err(TailRefusal::Slots)
        } else if place != self.sheet.packet_len() {
            Err(TailRefusal::Place)
        } else if self.sheet.delay <= self.count.tails {
            Err(TailRefusal::Tail)
        } else {
            Ok(())
        }
    }

    // Tells what was sent, and gives the window back.
    pub fn end(self) -> Sent<'w, S>
        ensures { EndCall self.entry result }
    {
        let WindingSender {
            sheet: _,
            count,
            line,
        } = self;
        Sent {
            rows: count.rows,
            tails: count.tails,
            window: line.end(),
        }
    }
}
