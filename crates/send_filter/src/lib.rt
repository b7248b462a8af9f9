// `send` over a whole text: the header, and then the run of the kind that it names.
#![tactic(auto)]

mod filter;

pub use filter::{SendOpening, Sending, send_text};
