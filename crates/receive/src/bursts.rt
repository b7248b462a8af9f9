// Misses that form bursts.
ghost use Rattle.std.specs.Prelude.{◌≡◌};
ghost use Rattle.receive.specs.Bursting.{two_burst_states, FormBursts};

use crate::table::SlotState;
use kinds::Symbol;

// Two bursts of three among eighteen slots; its contract is that they are such as the law over runs asks for.
pub fn two_bursts<S: Symbol>() -> [SlotState; 18]
    ensures states { result ≡ two_burst_states }
    ensures bursts { FormBursts S }
{
    let mut states = [SlotState::Arrived; 18];
    states[..3].fill(SlotState::Missed);
    states[9..12].fill(SlotState::Missed);
    states
}
