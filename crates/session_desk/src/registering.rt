ghost use Rattle.desk_core.specs.Registrations.{IsRegisterEnd};
ghost use Rattle.session_desk.specs.PassTurns.{StillGood};

use crate::held::Held;
use boot_program::Certified;
use desk_core::RegisterEnd;
use std::alloc::Global;
use turn_lock::Change;

// A batch is registered.
#[derive(Drop)]
pub(crate) struct Registering {
    pub alloc: Global,
    pub batch: u32,
    pub certified: Certified,
}

impl Change<Held> for Registering {
    type Answer = RegisterEnd;

    ghost fits = { λ _ _. Unit {0} };

    ghost does = { λ s pass before after answer. StillGood before.desk after.desk × IsRegisterEnd before.desk after.desk pass s.batch s.certified answer };

    fn apply(self, number: u32, value: &mut Held) -> RegisterEnd {
        value
            .desk
            .register(self.alloc, number, self.batch, self.certified)
    }
}
