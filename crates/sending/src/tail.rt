// The tail of a sending run.
ghost use Rattle.std.specs.Prelude.{◌≡◌, ◌≤◌, length, IfOk};
ghost use Rattle.sending.specs.Tailing.{TailPrinted};

use crate::print::print_packet;
use code::Sheet;
use kinds::Printed;
use runs::print_fault;
use std::alloc::AllocError;
use text::RunFault;
use transmit::WindingSender;

// Draws the tail packets after so many rows, and prints them; answers the refusal that ends them early, if one does.
pub(crate) fn print_tail<P: Printed>(
    winding: &mut WindingSender<'_, P>,
    sheet: Sheet,
    rows: u32,
    packet: &mut [P],
    out: &mut Vec<u8>,
) -> Result<Option<RunFault>, AllocError>
    requires { rows ≤ 1000000 }
    ensures { IfOk result (λ fault. TailPrinted P.kind P.form sheet rows winding.old (length packet.old) out.old.items out.new.items fault) }
{
    for slot in rows..rows + sheet.delay {
        match winding.tail(packet) {
            Ok(()) => print_packet(sheet, slot, packet, out)?,
            Err(refusal) => {
                let fault = RunFault::Tail {
                    line: rows + 2,
                    refusal,
                };
                print_fault(fault, out)?;
                return Ok(Some(fault));
            }
        }
    }
    Ok(None)
}
