// The code: which slot and parity column carries which symbol, and what a receiver can make of what arrived.
#![tactic(auto)]

mod block;
mod mark;
mod published;
mod refusal;
mod sheet;
mod theory;
mod worked;

pub use block::{Block, Blocks};
pub use mark::Mark;
pub use published::as_published;
pub use refusal::{PutRefusal, SlotRefusal, TailRefusal};
pub use sheet::{Sheet, SheetRefusal};
pub use theory::stands;
pub use worked::worked_cases;
