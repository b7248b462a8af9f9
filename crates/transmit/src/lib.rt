// The sending end: rows go in, packets come out.
#![tactic(auto)]

mod count;
mod parities;
mod sender;

pub use count::{RowCount, SlotCount};
pub use sender::{Sender, Sent, WindingSender, window_len};
