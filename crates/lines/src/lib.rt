// Numbers in fields, and the lines of text as they are written.
#![tactic(auto)]

mod field;
mod header;
mod pen;
mod write;
mod writer;

pub use field::{Field, FieldFault, write_field};
pub use header::{Header, SymbolKind};
pub use write::WriteRefusal;
pub use writer::{
    line_len, write_due, write_header, write_missed, write_packet, write_refusal, write_row,
    write_tally,
};
