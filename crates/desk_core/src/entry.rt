use crate::event::Event;
use crate::reply::Reply;
use cairo_model::Pie;

/// The room that an event wants in the journal before it changes anything: for its own entry and for one more, so that where no memory
/// is left the desk can still be closed.
pub(crate) const ENTRY_AND_CLOSE: usize = 2;

/// One event of the journal, with the number of the pass that made it and the reply to it.
#[derive(Debug, Drop)]
pub struct Entry {
    pub pass: u32,
    pub event: Event,
    pub reply: Reply,
}

/// An entry together with the PIE of the job that it made, where it made one. Contracts speak of journals of these; no value of
/// this type is made.
#[derive(Debug, Drop)]
pub struct FullEntry {
    pub entry: Entry,
    pub pie: Option<Pie>,
}
