// The lines of text as they are read, and what can be wrong with them.
#![tactic(auto)]

mod fault;
mod read;

pub use fault::{LineFault, RunFault, write_fault};
pub use read::{kind_of, read_header, read_missed, read_packet, read_row};
