// Which of the last slots arrived.
ghost use Rattle.std.specs.Prelude.{◌≡◌, ◌%◌, length, set, replicate, slice_index_or, slice_set};
ghost use Rattle.receive.specs.Memory.{came_in};

// What became of a slot.
#[derive(Clone, Copy, Debug, PartialEq, Eq)]
pub enum SlotState {
    Arrived,
    Missed,
}

// The states of the last 512 slots: that of slot s stands at place s mod 512. An array, since an end allocates nothing.
#[derive(Drop)]
pub struct SlotTable {
    states: [SlotState; 512],
}

impl SlotTable {
    pub(crate) fn new() -> SlotTable
        ensures { result.states ≡ replicate 512 SlotState.Missed }
    {
        SlotTable {
            states: [SlotState::Missed; 512],
        }
    }

    // Notes what became of a slot.
    pub(crate) fn note(&mut self, slot: u32, state: SlotState)
        ensures set { self.new.states ≡ slice_set self.old.states (slot % 512) state }
        ensures long { length self.new.states ≡ 512 }
    {
        self.states[(slot % 512) as usize] = state;
    }

    // Whether a slot arrived.
    pub(crate) fn came(&self, slot: u32) -> bool
        ensures { result ≡ came_in (slice_index_or self.now.states (slot % 512) SlotState.Arrived) }
    {
        self.states[(slot % 512) as usize] == SlotState::Arrived
    }
}
