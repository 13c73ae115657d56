//! Whether there is room, and whether a result waits.
ghost use Rattle.std.specs.Prelude.{◌≡◌, ◌↔◌, IsTrue};
ghost use Rattle.hall_loop.specs.Beside.{HasRoomBeside, has_waiting};

use crate::hall_loop::HallLoop;

impl HallLoop {
    /// Whether an event may be admitted: a slot is empty, events in flight and results that wait are fewer than two
    /// for each slot, and it wasn't said that no further event comes.
    pub fn has_room(&self) -> bool
        ensures { IsTrue result ↔ HasRoomBeside self.now }
    {
        let busy = self.admitted - u64::from(self.counts.events);
        let slots = u64::from(self.slots);
        let free = busy < slots;
        let few = self.admitted < self.handed + 2 * slots;
        !self.closed & free & few
    }

    /// Whether the result of the next record waits to be handed out.
    pub fn has_result(&self) -> bool
        ensures { result ≡ has_waiting self.now }
    {
        self.waiting.has_first()
    }
}
