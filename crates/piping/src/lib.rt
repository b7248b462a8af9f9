// From an input, through a run over its lines, to an output: what is decided is written before more is read.
#![tactic(auto)]

mod flow;
mod pieces;
mod piped;
mod program;

pub use flow::{in_pieces, pump, pump_from, pump_to_end, write_out};
pub use pieces::Piece;
pub use piped::{Piped, pipe};
pub use program::run_filter;
