ghost use Rattle.desk_core.specs.Journals.{no_pie};
ghost use Rattle.desk_core.specs.declared.event.Event.TheVariants.{GiveBack};
ghost use Rattle.session_desk.specs.PassTurns.{EventDone, StillGood};

use crate::held::Held;
use desk_core::Reply;
use std::alloc::AllocError;
use turn_lock::Change;

// A batch is given back.
#[derive(Clone, Copy)]
pub(crate) struct Returning {
    pub batch: u32,
}

impl Change<Held> for Returning {
    type Answer = Result<Reply, AllocError>;

    ghost fits = { λ _ _. Unit {0} };

    ghost does = { λ s pass before after answer. StillGood before.desk after.desk × EventDone pass (GiveBack s.batch) no_pie before.desk after.desk answer };

    fn apply(self, number: u32, value: &mut Held) -> Result<Reply, AllocError> {
        value.desk.give_back(number, self.batch)
    }
}
