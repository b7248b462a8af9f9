// Lines that are printed behind what is printed already.
ghost use Rattle.std.specs.Prelude.{◌≡◌, ◌++◌, replicate, OnOk};
ghost use Rattle.std.specs.Fn.{FnOnceReturnsAtMut};
ghost use Rattle.lines.specs.Writing.{fault_refused};
ghost use Rattle.text.specs.Faults.{run_line, run_number, run_position};
ghost use Rattle.runs.specs.Whole.{fault_text, written_text, unless};

use lines::WriteRefusal;
use std::alloc::AllocError;
use text::{RunFault, write_fault};

// Prints a line of this length, which is written into its place, and nothing where it is not written.
pub fn print_with<F: FnOnce(&mut [u8]) -> Result<(), WriteRefusal>>(
    len: usize,
    write: F,
    out: &mut Vec<u8>,
) -> Result<(), AllocError>
    requires { F.IsAlwaysCallable write }
    ensures { OnOk result ((written : _) × (line : _) × FnOnceReturnsAtMut F.FnOnce write (replicate len 0) written line × (out.new.items ≡ out.old.items ++ written_text written line)) }
{
    let start = out.len();
    out.reserve(len)?;
    out.resize(start + len, 0)?;
    let place = &mut out.as_mut_slice()[start..];
    match write(place) {
        Ok(()) => {}
        Err(_) => out.truncate(start),
    }
    Ok(())
}

// Prints the X line of a fault.
pub fn print_fault(fault: RunFault, out: &mut Vec<u8>) -> Result<(), AllocError>
    ensures { OnOk result (out.new.items ≡ out.old.items ++ unless (fault_refused (run_line fault) (run_number fault) (run_position fault) 18) (fault_text fault)) }
{
    print_with(18, |line| write_fault(line, fault), out)
}
