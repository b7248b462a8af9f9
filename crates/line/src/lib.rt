// The symbol line: a delay line over a window that the caller lends.
#![tactic(auto)]

mod line;
mod zeros;

pub use line::SymbolLine;
pub use zeros::clear;
