// The header of a text, and a program from it on.
#![tactic(auto)]

mod feeding;
mod header;
mod programs;
mod whole;

pub use feeding::feed_whole;
pub use header::Opening;
pub use programs::Program;
pub use whole::text_of;
