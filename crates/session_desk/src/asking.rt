ghost use Rattle.std.specs.Prelude.{◌<◌};
ghost use Rattle.desk_core.specs.Journals.{no_pie};
ghost use Rattle.desk_core.specs.declared.event.Event.TheVariants.{Ask};
ghost use Rattle.session_desk.specs.PassTurns.{EventDone, StillGood};

use crate::held::Held;
use cairo_model::Fact;
use desk_core::Reply;
use std::alloc::{AllocError, Global};
use turn_lock::Change;

// A question whether a fact stands.
#[derive(Drop)]
pub(crate) struct Asking<'a> {
    pub alloc: Global,
    pub client: u32,
    pub fact: &'a Fact,
}

impl<'a> Change<Held> for Asking<'a> {
    type Answer = Result<Reply, AllocError>;

    ghost fits = { λ s width. s.client < width };

    ghost does = { λ s pass before after answer. StillGood before.desk after.desk × EventDone pass (Ask s.client s.fact.now) no_pie before.desk after.desk answer };

    fn apply(self, number: u32, value: &mut Held) -> Result<Reply, AllocError> {
        value.desk.ask(self.alloc, number, self.client, self.fact)
    }
}
