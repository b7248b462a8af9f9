// `mend` after its header, as a run over lines: packets of text go in, rows of text come out.
#![tactic(auto)]

mod print;
mod run;

pub use run::MendRun;
