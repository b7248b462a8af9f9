// A hall between `send` and `mend`, in which some slots are missed.
ghost use Rattle.std.specs.Prelude.{◌≡◌, ◌<◌, ◌++◌, IfOk, OnOk};
ghost use Rattle.lines.specs.Lines.{ended, missed_line};
ghost use Rattle.relay.specs.Relaying.{hall as turning, Relays};
ghost use Rattle.relay.specs.Halls.{listed, passed};

use lines::write_missed;
use runs::print_with;
use std::alloc::{AllocError, Global};
use stream::split_line;

// Whether this slot is missed.
fn is_missed(missed: &[u32], slot: usize) -> bool
    ensures { result ≡ listed missed.now slot }
{
    slot < 1_000_000 && missed.contains(&(slot as u32))
}

// Writes a line behind what `out` holds.
fn put_line(out: &mut Vec<u8>, line: &[u8]) -> Result<(), AllocError>
    ensures { OnOk result (out.new.items ≡ out.old.items ++ ended line.now) }
{
    out.extend_from_slice(line)?;
    out.push(b'\n')?;
    Ok(())
}

// Writes the M line of a slot.
fn put_missed(out: &mut Vec<u8>, slot: u32) -> Result<(), AllocError>
    requires { slot < 1000000 }
    ensures { OnOk result (out.new.items ≡ out.old.items ++ ended (missed_line slot)) }
{
    print_with(10, |line| write_missed(line, slot), out)
}

// Writes the line that follows so many others, as it leaves the hall.
fn pass_line(
    out: &mut Vec<u8>,
    missed: &[u32],
    before: usize,
    line: &[u8],
) -> Result<(), AllocError>
    ensures { OnOk result (out.new.items ≡ out.old.items ++ ended (passed (listed missed.now) before line.now)) }
{
    match before.checked_sub(1) {
        Some(slot) if is_missed(missed, slot) => put_missed(out, slot as u32),
        _ => put_line(out, line),
    }
}

// The text with the M line in the place of each slot of the list.
pub fn hall(heap: Global, text: &[u8], missed: &[u32]) -> Result<Vec<u8>, AllocError>
    ensures turns { IfOk result (λ v. v.items ≡ turning (listed missed.now) text.now) }
    ensures relays { Relays }
{
    let mut out = Vec::new(heap);
    // Counted by hand: the library's `split` has a piece more behind a last byte 10.
    let mut rest = text;
    let mut before = 0;
    while let Some((line, more)) = split_line(rest) {
        pass_line(&mut out, missed, before, line)?;
        rest = more;
        before += 1;
    }
    if !rest.is_empty() {
        pass_line(&mut out, missed, before, rest)?;
    }
    Ok(out)
}
