// A stream of bytes, handed on line by line.
#![tactic(auto)]

mod feed;
mod run;

pub use feed::{LineFeed, line_len, split_line};
pub use run::LineRun;
