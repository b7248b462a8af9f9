// Kinds of symbol: what a row is made of.
#![tactic(auto)]

mod byte;
mod digit;
mod layout;
mod printed;
mod symbol;

pub use byte::Byte;
pub use digit::Digit;
pub use layout::Layout;
pub use printed::Printed;
pub use symbol::Symbol;
