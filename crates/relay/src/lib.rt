// Both programs one after the other: what `send` prints for a list of rows, `mend` reads, whatever slots are missed.
#![tactic(auto)]

mod passing;
mod relaying;

pub use passing::hall;
pub use relaying::relays;
