// The readers of whole runs.
#![tactic(auto)]

mod memory;
mod print;
mod reader;
mod standing;

pub use memory::filled;
pub use print::{print_fault, print_with};
pub use reader::{MendReader, RunReader, SendReader};
pub use standing::{MendLine, SendLine, Standing};
