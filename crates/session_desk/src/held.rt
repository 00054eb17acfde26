ghost use Rattle.session_desk.specs.Sessions.{passed_journal};

use desk_core::{Desk, FullEntry};
use turn_lock::Kept;

/// A desk as a lock keeps it. Its width is the number of clients.
#[derive(Drop)]
pub struct Held {
    pub(crate) desk: Desk,
}

impl Kept for Held {
    type Note = FullEntry;

    ghost journal = { λ h. passed_journal h.desk };

    ghost turns = { λ h. h.desk.turns };

    ghost width = { λ h. h.desk.clients };

    fn turns(&self) -> u64 {
        self.desk.turns()
    }
}
