// `send` after its header, as a run over lines: rows of text go in, packets of text come out.
#![tactic(auto)]

mod print;
mod run;
mod tail;

pub use run::SendRun;
