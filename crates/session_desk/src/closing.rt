ghost use Rattle.desk_core.specs.Journals.{no_pie};
ghost use Rattle.desk_core.specs.declared.event.Event.TheVariants.{Close};
ghost use Rattle.session_desk.specs.PassTurns.{EventDone, StillGood};

use crate::held::Held;
use desk_core::Reply;
use std::alloc::AllocError;
use turn_lock::Change;

// The desk is closed.
#[derive(Clone, Copy)]
pub(crate) struct Closing;

impl Change<Held> for Closing {
    type Answer = Result<Reply, AllocError>;

    ghost fits = { λ _ _. Unit {0} };

    ghost does = { λ _ pass before after answer. StillGood before.desk after.desk × EventDone pass Close no_pie before.desk after.desk answer };

    fn apply(self, number: u32, value: &mut Held) -> Result<Reply, AllocError> {
        value.desk.close(number)
    }
}
