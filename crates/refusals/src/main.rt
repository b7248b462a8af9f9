// Every refusal that a text can meet, with its line and position, through the functions behind `send` and `mend`.
#![tactic(auto)]

use code::Sheet;
use kinds::{Digit, Printed};
use lines::{Header, SymbolKind, write_row};
use mend_filter::mend_text;
use runs::filled;
use send_filter::send_text;
use sending::SendRun;
use std::alloc::Global;
use stream::LineRun;

// Texts for `send`, each with what is wrong in it.
const SENT: [(&str, &str); 24] = [
    ("an empty text", ""),
    ("an empty line", "\n"),
    ("a row before the header", "R       0 7\n"),
    ("a header in the run", "HD   1   1   1\nHD   1   1   1\n"),
    ("a slot among rows", "HD   1   1   1\nA       0 7 0\n"),
    ("a header that is too short", "HD   1   1  1\n"),
    ("a carriage return", "HD   1   1   1\nR       0 7\r\n"),
    ("a row that is too long", "HD   1   1   1\nR       0 7 7\n"),
    ("another kind letter", "HX   1   1   1\n"),
    ("L with a leading zero", "HD0001   1   1\n"),
    ("no k", "HD   1       1\n"),
    ("r with a blank behind it", "HD   1   1  1 \n"),
    ("no row number", "HD   1   1   1\nR         7\n"),
    ("a letter as symbol", "HD   1   2   1\nR       0 7 x\n"),
    (
        "a row number above its top",
        "HD   1   1   1\nR 1000000 7\n",
    ),
    ("a byte above 255", "HB   1   2   1\nR       0   1 256\n"),
    ("a row out of order", "HD   1   1   1\nR       1 7\n"),
    ("L is 0", "HD   0   1   1\n"),
    ("L is 33", "HD  33   1   1\n"),
    ("k is 49", "HD   1  49   1\n"),
    ("r is 17", "HD   1   1  17\n"),
    ("T is 320", "HD  32  48   5\n"),
    (
        "a bad symbol and a bad number: the leftmost",
        "HD   1   2   1\nR      x0 7 y\n",
    ),
    (
        "a bad symbol in a row out of order: the field",
        "HD   1   2   1\nR       5 7 y\n",
    ),
];

// Texts for `mend`.
const HEARD: [(&str, &str); 6] = [
    ("a row among slots", "HD   1   1   1\nR       0 7\n"),
    (
        "a missed slot that is too long",
        "HD   1   1   1\nM       0 7\n",
    ),
    (
        "a missed slot that is no number",
        "HD   1   1   1\nM       x\n",
    ),
    ("a missed slot above its top", "HD   1   1   1\nM 1000000\n"),
    (
        "a missed slot out of order",
        "HD   1   1   1\nM       0\nM       0\n",
    ),
    ("a packet without parity", "HD   1   1   1\nA       0 7\n"),
];

// Shows the last line of a text.
fn show(rt: &impl Print, what: &str, text: &[u8]) -> anyhow::Result<()> {
    let line = str::from_utf8(text)?.lines().last().unwrap_or("");
    println!(rt; "{line}   {what}")?;
    Ok(())
}

// A list of so many rows, on a sheet with T = 1.
fn long_list(heap: Global, rows: u32) -> anyhow::Result<Vec<u8>> {
    let sheet = Sheet::new(1, 1, 1)?;
    let mut text = Vec::new(heap);
    text.extend_from_slice(b"HD   1   1   1\n")?;
    for number in 0..rows {
        let mut line = [0; 12];
        write_row(&mut line, sheet, number, &[Digit::D7])?;
        text.extend_from_slice(&line)?;
    }
    Ok(text)
}

// A run over a window and places of these lengths takes a row.
fn lent(
    rt: &(impl Print + AllocGlobal),
    what: &str,
    window: usize,
    row: usize,
    packet: usize,
) -> anyhow::Result<()> {
    let heap = rt.alloc();
    let mut printed = Vec::new(heap);
    let mut window = filled(heap, Digit::D0, window)?;
    let row = filled(heap, Digit::D0, row)?;
    let packet = filled(heap, Digit::D0, packet)?;
    let header = Header {
        kind: SymbolKind::Digits,
        sheet: Sheet::new(3, 4, 2)?,
    };
    let mut run = SendRun::new(header, window.as_mut_slice(), row, packet);
    run.take_line(b"R       0 1 2 3 4", &mut printed)?;
    show(rt, what, printed.as_slice())
}

// What a writer answers, with its number.
fn written(
    rt: &impl Print,
    what: &str,
    number: u32,
    row: &[Digit],
    place: &mut [u8],
) -> anyhow::Result<()> {
    match write_row(place, Sheet::new(1, 1, 1)?, number, row) {
        Ok(()) => println!(rt; "written              {what}")?,
        Err(refusal) => println!(rt; "refused with {:>2}      {what}", refusal.number())?,
    }
    Ok(())
}

fn run(rt: &(impl Print + AllocGlobal)) -> anyhow::Result<()> {
    let heap = rt.alloc();
    println!(rt; "send:")?;
    for (what, text) in SENT {
        show(rt, what, send_text(heap, text.as_bytes())?.as_slice())?;
    }
    let list = long_list(heap, 1_000_000)?;
    show(
        rt,
        "a tail without a slot left",
        send_text(heap, list.as_slice())?.as_slice(),
    )?;
    println!(rt; "mend:")?;
    for (what, text) in HEARD {
        show(rt, what, mend_text(heap, text.as_bytes())?.as_slice())?;
    }
    println!(rt; "a run that is lent too little:")?;
    for (what, window, row, packet) in [
        ("what the sheet needs", 24, 4, 6),
        ("a window of 23 symbols", 23, 4, 6),
        ("a place for 3 symbols of a row", 24, 3, 6),
        ("a place for 7 symbols of a packet", 24, 4, 7),
    ] {
        lent(rt, what, window, row, packet)?;
    }
    println!(rt; "writing a row:")?;
    written(rt, "row 999999", 999_999, &[Digit::D7], &mut [0; 12])?;
    written(rt, "row 1000000", 1_000_000, &[Digit::D7], &mut [0; 12])?;
    written(
        rt,
        "two symbols for one",
        0,
        &[Digit::D7, Digit::D7],
        &mut [0; 12],
    )?;
    written(rt, "a place of 11 bytes", 0, &[Digit::D7], &mut [0; 11])?;
    Ok(())
}

fn main(rt: HostRuntime) -> anyhow::Result<()> {
    run(&rt)
}
