// The receiving end: slots go in, each arrived or missed, and rows come out.
#![tactic(auto)]

mod bursts;
mod due;
mod receiver;
mod table;
mod tally;

pub use bursts::two_bursts;
pub use due::{Due, Verdict};
pub use receiver::{Receiver, window_len};
pub use table::SlotState;
pub use tally::Tally;
