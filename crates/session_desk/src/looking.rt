ghost use Rattle.std.specs.Prelude.{◌<◌};
ghost use Rattle.desk_core.specs.Journals.{no_pie};
ghost use Rattle.desk_core.specs.declared.event.Event.TheVariants.{Status};
ghost use Rattle.session_desk.specs.PassTurns.{EventDone, StillGood};

use crate::held::Held;
use desk_core::Reply;
use std::alloc::AllocError;
use turn_lock::Change;

// A question where a job stands.
#[derive(Clone, Copy)]
pub(crate) struct Looking {
    pub client: u32,
    pub number: u32,
}

impl Change<Held> for Looking {
    type Answer = Result<Reply, AllocError>;

    ghost fits = { λ s width. s.client < width };

    ghost does = { λ s pass before after answer. StillGood before.desk after.desk × EventDone pass (Status s.client s.number) no_pie before.desk after.desk answer };

    fn apply(self, number: u32, value: &mut Held) -> Result<Reply, AllocError> {
        value.desk.status(number, self.client, self.number)
    }
}
