// Many slots, one call after the other.
ghost use Rattle.std.specs.Prelude.{◌≡◌, ◌<◌, ◌≤◌, length, Ok};
ghost use Rattle.std.specs.Result.{result_err};
ghost use Rattle.code.specs.Sheets.{n};
ghost use Rattle.receive.specs.Memory.{need};
ghost use Rattle.receive.specs.Refusing.{slots_refused};
ghost use Rattle.receive.specs.Handing.{replied};
ghost use Rattle.receive.specs.Calls.{room, SlotCall};
ghost use Rattle.receive.specs.Driving.{arrival, slots_of, SlotsCall};

use super::Receiver;
use super::calls::window_len;
use crate::due::Due;
use crate::table::SlotState;
use code::{Mark, SlotRefusal};
use kinds::Symbol;

impl<'w, S: Symbol> Receiver<'w, S> {
    // Takes a slot of this state; the packet of a missed slot is not looked at. The two come apart, as many slots have them in two
    // slices.
    fn take_slot(
        &mut self,
        state: SlotState,
        packet: &[S],
        row: &mut [S],
        marks: &mut [Mark],
    ) -> Result<Option<Due>, SlotRefusal>
        ensures { SlotCall S.kind self.old self.new (arrival state packet.now) (replied row.old row.new marks.old marks.new result) }
    {
        match state {
            SlotState::Arrived => self.arrived(packet, row, marks),
            SlotState::Missed => self.missed(row, marks),
        }
    }

    // Takes as many slots as there are states, each with its part of the packets (that of a missed slot is not looked at), and
    // with its part of the rows and of the marks as places; answers how many rows fell due. Slices side by
    // side, since a caller lends them, each whole in one piece.
    #[tactic(auto, using(crate::proofs::Driving::part_ends))]
    pub fn take_slots(
        &mut self,
        states: &[SlotState],
        packets: &[S],
        rows: &mut [S],
        marks: &mut [Mark],
    ) -> Result<u32, SlotRefusal>
        ensures { SlotsCall S.kind self.old self.new (slots_of states.now packets.now rows.old rows.new marks.old marks.new) result }
    {
        self.check_slots(states.len(), packets.len(), rows.len(), marks.len())?;
        let packet = self.sheet.packet_len();
        let row = self.sheet.row as usize;
        let mut handed = 0;
        // By index: of what a loop over zipped chunks writes nothing would be known.
        for (i, state) in states.iter().enumerate() {
            let from = i * packet;
            let start = i * row;
            let end = start + row;
            let due = self.take_slot(
                *state,
                &packets[from..from + packet],
                &mut rows[start..end],
                &mut marks[start..end],
            )?;
            if due.is_some() {
                handed += 1;
            }
        }
        Ok(handed)
    }

    // Whether so many slots can be taken, with so many symbols of packets and places: the first refusal that holds.
    fn check_slots(
        &self,
        count: usize,
        packets: usize,
        symbols: usize,
        marks: usize,
    ) -> Result<(), SlotRefusal>
        ensures { result_err result ≡ slots_refused self.now.sheet (room self.now) self.now.counters.slots count packets symbols marks }
    {
        let left = 1_000_000u32.saturating_sub(self.counters.slots) as usize;
        if self.line.len() < window_len(self.sheet) {
            return Err(SlotRefusal::Window);
        }
        if left < count {
            return Err(SlotRefusal::Slots);
        }
        let all = count * self.sheet.row as usize;
        if packets != count * self.sheet.packet_len() {
            Err(SlotRefusal::Packet)
        } else if symbols != all || marks != all {
            Err(SlotRefusal::Place)
        } else {
            Ok(())
        }
    }
}
