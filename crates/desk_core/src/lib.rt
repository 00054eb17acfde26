//! The desk on one thread: who submitted what, which batches were made, which facts stand, and the journal of all that happened.
#![tactic(auto)]

mod ask;
mod batch;
mod close;
mod desk;
mod entry;
mod event;
mod give_back;
mod job;
mod laws;
pub mod limits;
mod new;
mod offer;
mod phase;
mod quota;
mod reads;
mod register;
mod register_end;
mod reply;
mod same_tasks;
mod seal;
mod status;
mod submit;
mod take;
mod usage;

pub use batch::Batch;
pub use desk::Desk;
pub use entry::{Entry, FullEntry};
pub use event::{Event, OfferNote};
pub use job::Job;
pub use laws::{
    cut_is_longest, hand_law, hold_laws, isolation, journals_are_isolated, legal_is_kept,
    registered_laws, registry_law, sound_is_kept, stays_law,
};
pub use offer::Offer;
pub use phase::{JobPhase, Phase};
pub use register_end::RegisterEnd;
pub use reply::{QuotaKind, Reply};
