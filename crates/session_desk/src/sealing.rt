ghost use Rattle.desk_core.specs.Journals.{no_pie};
ghost use Rattle.desk_core.specs.declared.event.Event.TheVariants.{Seal};
ghost use Rattle.session_desk.specs.PassTurns.{EventDone, StillGood};

use crate::held::Held;
use desk_core::Reply;
use std::alloc::{AllocError, Global};
use turn_lock::Change;

// A sealing of the next batch.
#[derive(Drop)]
pub(crate) struct Sealing {
    pub alloc: Global,
}

impl Change<Held> for Sealing {
    type Answer = Result<Reply, AllocError>;

    ghost fits = { λ _ _. Unit {0} };

    ghost does = { λ s pass before after answer. StillGood before.desk after.desk × EventDone pass Seal no_pie before.desk after.desk answer };

    fn apply(self, number: u32, value: &mut Held) -> Result<Reply, AllocError> {
        value.desk.seal(self.alloc, number)
    }
}
