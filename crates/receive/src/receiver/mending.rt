// The row that falls due, from what the receiver remembers: copied where it arrived, else mended block by block. The symbols
// of a block have one carrying slot, and lie in one piece of the line. The places for symbols and marks come as two slices, as
// the calls get them: each is cut and written by itself.
ghost use Rattle.std.specs.Prelude.{◌≡◌, ◌+◌, ◌-◌, ◌*◌, ◌<◌, min, false, map, length, replicate, slice_index_or};
ghost use Rattle.std.specs.List.{range_with_len};
ghost use Rattle.code.specs.Blocks.{size};
ghost use Rattle.code.specs.Sheets.{n};
ghost use Rattle.code.specs.Mending.{heard, mark, given, marks_of, row_of};
ghost use Rattle.line.specs.Ring.{symbol_back};
ghost use Rattle.line.specs.Line.{contents};
ghost use Rattle.receive.specs.Memory.{memory};
ghost use Rattle.receive.specs.Handing.{verdict};
ghost use Rattle.receive.specs.Calls.{HandsOut};
ghost use Rattle.receive.specs.Blocks.{of_block, sums_beside, known_beside, settled};

use super::Receiver;
use crate::due::{Due, Verdict, verdict_of};
use code::{Block, Mark};
use kinds::Symbol;
use line::{SymbolLine, clear};

// Writes one mark into every place. A loop: `fill` writes the last one apart, and takes longer.
fn mark_all(places: &mut [Mark], mark: Mark)
    ensures { places.new ≡ replicate (length places.old) mark }
{
    for place in places.iter_mut() {
        *place = mark;
    }
}

// A symbol by the outlook for it: what is left of the parity, or zero.
fn settle<S: Symbol>(outlook: Mark, parity: S, beside: S) -> S
    ensures { result ≡ settled S.kind outlook parity beside }
{
    match outlook {
        Mark::Mended => parity.difference(beside),
        Mark::Arrived | Mark::Lost => S::zero(),
    }
}

// The symbols of a block, whose parity symbols begin `steps` back, from the outlooks and the sums. By index, since of what a loop
// over a zip with `iter_mut` writes nothing would be known.
fn settle_all<S: Symbol>(
    line: &SymbolLine<'_, S>,
    steps: usize,
    outlooks: &[Mark],
    places: &mut [S],
)
    requires { length outlooks.now ≡ length places.old }
    ensures { places.new ≡ map (λ i. settled S.kind (slice_index_or outlooks.now i Mark.Arrived) (symbol_back S.kind.zero (contents line.now) (steps - i)) (slice_index_or places.old i S.kind.zero)) (range_with_len 0 (length places.old)) }
{
    for (i, place) in places.iter_mut().enumerate() {
        let parity = line.back_or_zero(steps.saturating_sub(i));
        *place = settle(outlooks[i], parity, *place);
    }
}

impl<'w, S: Symbol> Receiver<'w, S> {
    // Whether a slot is remembered, and arrived.
    fn heard(&self, slot: u32) -> bool
        requires { slot < 2000000 }
        ensures { result ≡ heard (memory S.kind self.now) slot }
    {
        let slots = self.counters.slots;
        if slots <= slot || slot + 2 * self.sheet.delay < slots {
            return false;
        }
        self.table.came(slot)
    }

    // How far back in the line a symbol of a slot's packet lies.
    fn steps_to(&self, slot: u32, symbol: usize) -> usize
        requires taken { slot < self.now.counters.slots }
        requires within { symbol < n self.now.sheet }
        ensures { result ≡ (self.now.counters.slots - slot) * n self.now.sheet - symbol }
    {
        let slots = (self.counters.slots - slot) as usize;
        slots * self.sheet.packet_len() - symbol
    }

    // Takes in another block, beside one that slot `carrier` carries: adds its symbols to the sums, or gives up what it has a
    // part in where its row was missed.
    #[tactic(auto, using(crate::proofs::Beside::block_long))]
    fn take_in(
        &self,
        carrier: u32,
        block: Block,
        other: Block,
        sums: &mut [S],
        outlooks: &mut [Mark],
    )
        requires sheets { (block.sheet ≡ self.now.sheet) × (other.sheet ≡ self.now.sheet) }
        requires taken { carrier < self.now.counters.slots }
        requires sums { sums.old ≡ sums_beside S.kind self.now.sheet (memory S.kind self.now) carrier block.first other.first }
        requires outlooks { outlooks.old ≡ known_beside self.now.sheet (heard (memory S.kind self.now)) carrier block.first other.first }
        ensures sums { sums.new ≡ sums_beside S.kind self.now.sheet (memory S.kind self.now) carrier block.first (min (other.first + self.now.sheet.parity) self.now.sheet.row) }
        ensures outlooks { outlooks.new ≡ known_beside self.now.sheet (heard (memory S.kind self.now)) carrier block.first (min (other.first + self.now.sheet.parity) self.now.sheet.row) }
    {
        if other.first == block.first || carrier < other.lag {
            return;
        }
        let row = carrier - other.lag;
        // the columns that both have
        let end = self
            .sheet
            .parity
            .min(self.sheet.row - block.first.max(other.first)) as usize;
        if self.heard(row) {
            let steps = self.steps_to(row, other.first as usize);
            self.line.add_back(steps, &mut sums[0..end]);
        } else {
            mark_all(&mut outlooks[0..end], Mark::Lost);
        }
    }

    // What slot `carrier` carries beside a block.
    fn gather(&self, carrier: u32, block: Block, sums: &mut [S], outlooks: &mut [Mark])
        requires sheet { block.sheet ≡ self.now.sheet }
        requires taken { carrier < self.now.counters.slots }
        requires symbols { length sums.old ≡ size self.now.sheet block.first }
        requires marks { length outlooks.old ≡ size self.now.sheet block.first }
        ensures sums { sums.new ≡ sums_beside S.kind self.now.sheet (memory S.kind self.now) carrier block.first self.now.sheet.row }
        ensures outlooks { outlooks.new ≡ known_beside self.now.sheet (heard (memory S.kind self.now)) carrier block.first self.now.sheet.row }
    {
        clear(sums);
        mark_all(outlooks, Mark::Mended);
        for other in self.sheet.blocks() {
            self.take_in(carrier, block, other, sums, outlooks);
        }
    }

    // Mends what can be mended of a block of a missed row.
    fn mend_block(&self, row: u32, block: Block, symbols: &mut [S], marks: &mut [Mark])
        requires sheet { block.sheet ≡ self.now.sheet }
        requires taken { row + block.lag < self.now.counters.slots }
        requires missed { heard (memory S.kind self.now) row ≡ false }
        requires symbols { length symbols.old ≡ size self.now.sheet block.first }
        requires marks { length marks.old ≡ size self.now.sheet block.first }
        ensures symbols { symbols.new ≡ of_block self.now.sheet block.first (given S.kind self.now.sheet (memory S.kind self.now) row) }
        ensures marks { marks.new ≡ of_block self.now.sheet block.first (mark self.now.sheet (heard (memory S.kind self.now)) row) }
    {
        let carrier = row + block.lag;
        if !self.heard(carrier) {
            clear(symbols);
            mark_all(marks, Mark::Lost);
            return;
        }
        self.gather(carrier, block, symbols, marks);
        let parity = self.sheet.row as usize + block.column();
        let steps = self.steps_to(carrier, parity);
        settle_all(&self.line, steps, marks, symbols);
    }

    // Mends what can be mended of a missed row.
    fn mend(&self, row: u32, symbols: &mut [S], marks: &mut [Mark])
        requires taken { row + self.now.sheet.delay < self.now.counters.slots }
        requires missed { heard (memory S.kind self.now) row ≡ false }
        requires symbols { length symbols.old ≡ self.now.sheet.row }
        requires marks { length marks.old ≡ self.now.sheet.row }
        ensures symbols { symbols.new ≡ row_of S.kind self.now.sheet (memory S.kind self.now) row }
        ensures marks { marks.new ≡ marks_of self.now.sheet (heard (memory S.kind self.now)) row }
    {
        for block in self.sheet.blocks() {
            let start = block.first as usize;
            let end = start + block.len();
            self.mend_block(row, block, &mut symbols[start..end], &mut marks[start..end]);
        }
    }

    // Writes a row and its marks into the places, and answers the verdict on it.
    fn write_row(&self, row: u32, symbols: &mut [S], marks: &mut [Mark]) -> Verdict
        requires taken { row + self.now.sheet.delay < self.now.counters.slots }
        requires symbols { length symbols.old ≡ self.now.sheet.row }
        requires marks { length marks.old ≡ self.now.sheet.row }
        ensures symbols { symbols.new ≡ row_of S.kind self.now.sheet (memory S.kind self.now) row }
        ensures marks { marks.new ≡ marks_of self.now.sheet (heard (memory S.kind self.now)) row }
        ensures verdict { result ≡ verdict (marks_of self.now.sheet (heard (memory S.kind self.now)) row) }
    {
        if self.heard(row) {
            self.line.copy_back(self.steps_to(row, 0), symbols);
            mark_all(marks, Mark::Arrived);
            Verdict::Whole
        } else {
            self.mend(row, symbols, marks);
            verdict_of(marks)
        }
    }

    // Counts the slot that has just gone in, and hands out what falls due with it.
    pub(super) fn hand_out(&mut self, row: &mut [S], marks: &mut [Mark]) -> Option<Due>
        requires few { self.old.counters.slots < 1000000 }
        requires symbols { length row.old ≡ self.old.sheet.row }
        requires marks { length marks.old ≡ self.old.sheet.row }
        ensures { HandsOut S.kind self.old self.new row.old row.new marks.old marks.new result }
    {
        let slot = self.counters.slots;
        let wait = self.sheet.delay;
        self.counters.slots += 1;
        if slot < wait {
            return None;
        }
        let due = slot - wait;
        let verdict = self.write_row(due, row, marks);
        self.counters.count(verdict);
        Some(Due { row: due, verdict })
    }
}
