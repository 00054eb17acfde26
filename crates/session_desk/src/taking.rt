ghost use Rattle.session_desk.specs.PassTurns.{StillGood, TakeDone};

use crate::held::Held;
use boot_program::Parcel;
use desk_core::Reply;
use std::alloc::{AllocError, Global};
use turn_lock::Change;

// A batch is taken.
#[derive(Drop)]
pub(crate) struct Taking {
    pub alloc: Global,
}

impl Change<Held> for Taking {
    type Answer = Result<(Reply, Option<Parcel>), AllocError>;

    ghost fits = { λ _ _. Unit {0} };

    ghost does = { λ s pass before after answer. StillGood before.desk after.desk × TakeDone pass before.desk after.desk answer };

    fn apply(self, number: u32, value: &mut Held) -> Result<(Reply, Option<Parcel>), AllocError> {
        value.desk.take(self.alloc, number)
    }
}
