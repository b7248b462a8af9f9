// The A lines that a sending run prints.
ghost use Rattle.std.specs.Prelude.{◌≡◌, ◌++◌, OnOk};
ghost use Rattle.sending.specs.Printing.{packet_text};

use code::Sheet;
use kinds::Printed;
use lines::write_packet;
use runs::print_with;
use std::alloc::AllocError;

// Prints the A line of a packet, unless it cannot be written.
pub(crate) fn print_packet<P: Printed>(
    sheet: Sheet,
    slot: u32,
    packet: &[P],
    out: &mut Vec<u8>,
) -> Result<(), AllocError>
    ensures { OnOk result (out.new.items ≡ out.old.items ++ packet_text P.form sheet slot packet.now) }
{
    let len = 10 + sheet.packet_len() * P::layout().width;
    print_with(len, |line| write_packet(line, sheet, slot, packet), out)
}
