// Both ends of one link, and that they meet: what the sender writes is what the receiver's law assumes.
#![tactic(auto)]

mod ends;

pub use ends::Ends;
