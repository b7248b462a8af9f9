ghost use Rattle.std.specs.Prelude.{◌≡◌, Some, None};
ghost use Rattle.std.specs.Result.{result_err};
ghost use Rattle.receive.specs.Memory.{need};
ghost use Rattle.receive.specs.Refusing.{slot_refused};
ghost use Rattle.receive.specs.Handing.{replied};
ghost use Rattle.receive.specs.Calls.{room, ReceiverMade, SlotCall, TallyCall};
ghost use Rattle.receive.specs.Law.{Lawful};

use super::Receiver;
use crate::due::Due;
use crate::table::{SlotState, SlotTable};
use crate::tally::Tally;
use code::{Mark, Sheet, SlotRefusal};
use kinds::Symbol;
use line::SymbolLine;

// The symbols of the window that a receiver needs, 2 × T × n.
pub fn window_len(sheet: Sheet) -> usize
    ensures { result ≡ need sheet }
{
    let slots = 2 * sheet.delay as usize;
    slots * sheet.packet_len()
}

impl<'w, S: Symbol> Receiver<'w, S> {
    // A receiver on this sheet over a window of any length, with what holds of all calls that follow on it.
    pub fn new(sheet: Sheet, window: &'w mut [S]) -> Receiver<'w, S>
        ensures made { ReceiverMade sheet window.old result }
        ensures same { result.line.window.ghost_name ≡ window.entry.ghost_name }
        ensures law { Lawful S.kind sheet window.old result }
    {
        Receiver {
            sheet,
            counters: Tally::new(),
            table: SlotTable::new(),
            line: SymbolLine::over(window, window_len(sheet)),
        }
    }

    // The slots taken, and the rows given whole, mended and lost.
    pub fn tally(&self) -> Tally
        ensures { TallyCall self.now result }
    {
        self.counters
    }

    // The next slot arrived with this packet. The row that falls due with it goes into the places.
    pub fn arrived(
        &mut self,
        packet: &[S],
        row: &mut [S],
        marks: &mut [Mark],
    ) -> Result<Option<Due>, SlotRefusal>
        ensures { SlotCall S.kind self.old self.new (Some packet.now) (replied row.old row.new marks.old marks.new result) }
    {
        let unfit = packet.len() != self.sheet.packet_len();
        self.check_slot(unfit, row.len(), marks.len())?;
        self.table.note(self.counters.slots, SlotState::Arrived);
        self.line.push_all(packet);
        Ok(self.hand_out(row, marks))
    }

    // The next slot was missed. The row that falls due with it goes into the places.
    pub fn missed(&mut self, row: &mut [S], marks: &mut [Mark]) -> Result<Option<Due>, SlotRefusal>
        ensures { SlotCall S.kind self.old self.new None (replied row.old row.new marks.old marks.new result) }
    {
        self.check_slot(false, row.len(), marks.len())?;
        self.table.note(self.counters.slots, SlotState::Missed);
        self.line.push_zeros(self.sheet.packet_len());
        Ok(self.hand_out(row, marks))
    }

    // Whether a slot call can be taken, with an unfit packet or not (a missed slot has none, which is not unfit), and places for so
    // many symbols and marks: the first refusal that holds.
    fn check_slot(&self, unfit: bool, symbols: usize, marks: usize) -> Result<(), SlotRefusal>
        ensures { result_err result ≡ slot_refused self.now.sheet (room self.now) self.now.counters.slots unfit symbols marks }
    {
        let row = self.sheet.row as usize;
        if self.line.len() < window_len(self.sheet) {
            Err(SlotRefusal::Window)
        } else if 1_000_000 <= self.counters.slots {
            Err(SlotRefusal::Slots)
        } else if unfit {
            Err(SlotRefusal::Packet)
        } else if symbols != row || marks != row {
            Err(SlotRefusal::Place)
        } else {
            Ok(())
        }
    }
}
