ghost use Rattle.std.specs.Prelude.{◌<◌};
ghost use Rattle.desk_core.specs.Turns.{offer_note, pie_of};
ghost use Rattle.desk_core.specs.declared.event.Event.TheVariants.{Submit};
ghost use Rattle.session_desk.specs.PassTurns.{EventDone, StillGood};

use crate::held::Held;
use desk_core::{Offer, Reply};
use std::alloc::{AllocError, Global};
use turn_lock::Change;

// A submission of an offer that is already made.
#[derive(Drop)]
pub(crate) struct Submitting {
    pub alloc: Global,
    pub client: u32,
    pub offer: Offer,
}

impl Change<Held> for Submitting {
    type Answer = Result<Reply, AllocError>;

    ghost fits = { λ s width. s.client < width };

    ghost does = { λ s pass before after answer. StillGood before.desk after.desk × EventDone pass (Submit s.client (offer_note s.offer)) (pie_of s.offer) before.desk after.desk answer };

    fn apply(self, number: u32, value: &mut Held) -> Result<Reply, AllocError> {
        value
            .desk
            .submit(self.alloc, number, self.client, self.offer)
    }
}
