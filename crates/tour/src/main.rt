// A tour of the link: one list is sent twice. The first time a burst of slots is missed and mended; the second time the misses
// lie so that some symbols are lost for good, and the receiver says so.
#![tactic(auto)]

use code::{Mark, PutRefusal, Sheet, TailRefusal};
use kinds::{Digit, Printed};
use link::Ends;
use receive::{Receiver, Verdict};
use std::fmt;
use std::fmt::{Display, Formatter};
use transmit::{Sender, WindingSender};

// The six rows of the list, one to a slot.
const ROWS: [[u32; 4]; 6] = [
    [1, 2, 3, 4],
    [5, 6, 7, 8],
    [9, 0, 1, 2],
    [3, 4, 5, 6],
    [7, 8, 9, 0],
    [0, 0, 0, 1],
];

// Symbols one after the other.
#[derive(Clone, Copy)]
struct Symbols<'a>(&'a [Digit]);

impl Display for Symbols<'_> {
    fn fmt<W: fmt::Write>(&self, f: &mut Formatter<W>) -> fmt::Result {
        for symbol in self.0 {
            write!(f, " {}", symbol.number())?;
        }
        Ok(())
    }
}

// The symbols of a row with their marks.
#[derive(Clone, Copy)]
struct Marked<'a> {
    row: &'a [Digit],
    marks: &'a [Mark],
}

impl Display for Marked<'_> {
    fn fmt<W: fmt::Write>(&self, f: &mut Formatter<W>) -> fmt::Result {
        for (symbol, mark) in self.row.iter().zip(self.marks) {
            match mark {
                Mark::Arrived => write!(f, "  {}", symbol.number())?,
                Mark::Mended => write!(f, " +{}", symbol.number())?,
                Mark::Lost => f.write_str("  ?")?,
            }
        }
        Ok(())
    }
}

// What became of a row.
#[derive(Clone, Copy)]
struct Fate(Verdict);

impl Display for Fate {
    fn fmt<W: fmt::Write>(&self, f: &mut Formatter<W>) -> fmt::Result {
        match self.0 {
            Verdict::Whole => f.write_str("whole"),
            Verdict::Mended(count) => write!(f, "mended: {count}"),
            Verdict::Lost {
                mended,
                lost,
                first,
            } => write!(f, "lost: {lost}, mended: {mended}, first lost: {first}"),
        }
    }
}

// A receiver in a hall where these slots are missed.
#[derive(Drop)]
struct Hall<'a, 'r> {
    receiver: Receiver<'r, Digit>,
    missed: &'a [u32],
}

impl Hall<'_, '_> {
    // One slot: the packet arrives or is missed, and what falls due is shown.
    fn hear(&mut self, rt: &impl Print, slot: u32, packet: &[Digit; 6]) -> anyhow::Result<()> {
        let mut row = [Digit::D0; 4];
        let mut marks = [Mark::Arrived; 4];
        let (symbols, parity) = packet.split_at(4);
        print!(rt; "slot {slot:>2} {} |{}", Symbols(symbols), Symbols(parity))?;
        let answer = if self.missed.contains(&slot) {
            print!(rt; "  missed   ")?;
            self.receiver.missed(&mut row, &mut marks)
        } else {
            print!(rt; "  arrived  ")?;
            self.receiver.arrived(packet, &mut row, &mut marks)
        };
        match answer {
            Ok(Some(due)) => {
                let marked = Marked {
                    row: &row,
                    marks: &marks,
                };
                println!(rt; "row {} {marked}  {}", due.row, Fate(due.verdict))?
            }
            Ok(None) => println!(rt; "nothing due")?,
            Err(refusal) => println!(rt; "refused: {}", refusal.number())?,
        }
        Ok(())
    }

    // A packet on its way: the receiver hears it if it was written; else the refusal is shown by its number.
    fn pass(
        &mut self,
        rt: &impl Print,
        slot: u32,
        packet: &[Digit; 6],
        written: Result<(), u32>,
    ) -> anyhow::Result<()> {
        match written {
            Ok(()) => self.hear(rt, slot, packet)?,
            Err(refusal) => println!(rt; "refused: {refusal}")?,
        }
        Ok(())
    }

    // Puts every row and lets the receiver hear its packet.
    fn send_rows(&mut self, rt: &impl Print, sender: &mut Sender<'_, Digit>) -> anyhow::Result<()> {
        for (slot, row) in (0..).zip(ROWS) {
            let mut packet = [Digit::D0; 6];
            let written = sender.put(&row.map(Digit::of_rest), &mut packet);
            self.pass(rt, slot, &packet, written.map_err(PutRefusal::number))?;
        }
        Ok(())
    }

    // Draws every tail packet and lets the receiver hear it.
    fn send_tail(
        &mut self,
        rt: &impl Print,
        winding: &mut WindingSender<'_, Digit>,
    ) -> anyhow::Result<()> {
        for slot in 6..12 {
            let mut packet = [Digit::D0; 6];
            let written = winding.tail(&mut packet);
            self.pass(rt, slot, &packet, written.map_err(TailRefusal::number))?;
        }
        Ok(())
    }
}

// Sends the list to a receiver that misses these slots.
fn send_list(rt: &impl Print, sheet: Sheet, missed: &[u32]) -> anyhow::Result<()> {
    let mut near = [Digit::D0; 24];
    let mut far = [Digit::D0; 72];
    let Ends {
        mut sender,
        receiver,
    } = Ends::new(sheet, &mut near, &mut far);
    let mut hall = Hall { receiver, missed };
    hall.send_rows(rt, &mut sender)?;
    let mut winding = sender.wind_down();
    let heard = hall.send_tail(rt, &mut winding);
    let sent = winding.end();
    heard?;
    let tally = hall.receiver.tally();
    println!(rt; "sent {} rows and {} tail packets", sent.rows, sent.tails)?;
    println!(rt;
        "slots {}: rows whole {}, mended {}, lost {}",
        tally.slots, tally.whole, tally.mended, tally.lost
    )?;
    Ok(())
}

// What the two ends answer over windows of these lengths.
fn windows(
    rt: &impl Print,
    sheet: Sheet,
    near: &mut [Digit],
    far: &mut [Digit],
) -> anyhow::Result<()> {
    let mut packet = [Digit::D0; 6];
    let mut row = [Digit::D0; 4];
    let mut marks = [Mark::Arrived; 4];
    let sends = near.len();
    let hears = far.len();
    match Sender::new(sheet, near).put(&row, &mut packet) {
        Ok(()) => println!(rt; "a sender over {sends} symbols sends")?,
        Err(refusal) => println!(rt;
            "a sender over {sends} symbols answers {}",
            refusal.number()
        )?,
    }
    match Receiver::new(sheet, far).missed(&mut row, &mut marks) {
        Ok(_) => println!(rt; "a receiver over {hears} symbols hears")?,
        Err(refusal) => println!(rt;
            "a receiver over {hears} symbols answers {}",
            refusal.number()
        )?,
    }
    Ok(())
}

fn tour(rt: &impl Print, sheet: Sheet) -> anyhow::Result<()> {
    println!(rt;
        "sheet: bursts of {} slots, {} symbols a row, {} parity symbols, delay {} slots",
        sheet.burst, sheet.row, sheet.parity, sheet.delay
    )?;
    println!(rt; "\nslots 0, 1 and 2 are missed (+ marks a mended symbol):")?;
    send_list(rt, sheet, &[0, 1, 2])?;
    println!(rt; "\nslots 0 and 3 are missed (? marks a lost symbol):")?;
    send_list(rt, sheet, &[0, 3])?;
    println!(rt; "\nwindows:")?;
    windows(rt, sheet, &mut [Digit::D0; 24], &mut [Digit::D0; 72])?;
    windows(rt, sheet, &mut [Digit::D0; 23], &mut [Digit::D0; 71])
}

fn main(rt: HostRuntime) -> anyhow::Result<()> {
    tour(&rt, Sheet::new(3, 4, 2)?)
}
