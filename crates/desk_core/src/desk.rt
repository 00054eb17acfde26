use crate::batch::Batch;
use crate::entry::Entry;
use crate::job::Job;
use crate::usage::Usage;
use fact_registry::Registry;
use std::marker::Model;

/// The desk of so many clients: jobs in the order of their admission, batches in the order of their sealing, the registry of
/// facts, and the journal of all events. What its type keeps is `IsGoodDesk`.
#[derive(Drop)]
pub struct Desk {
    pub(crate) clients: u32,
    pub(crate) jobs: Vec<Job>,
    pub(crate) batches: Vec<Batch>,
    pub(crate) registry: Registry,
    pub(crate) entries: Vec<Entry>,
    pub(crate) closed: bool,
    /// Modulo 2^64.
    pub(crate) turns: u64,
    /// Of each client.
    pub(crate) usages: Vec<Usage>,
    /// Of each client, the index of its job of each number (`MOST_CLIENT_PIES` places a client).
    pub(crate) places: Vec<Option<u32>>,
    /// How many jobs are in batches.
    pub(crate) batched: u32,
    /// How many batches stand before the first sealed one.
    pub(crate) next: u32,
}

impl Model for Desk {
    ghost use Rattle.desk_core.specs.DeskRecords.{DeskRecord};
    ghost use Rattle.desk_core.specs.Kept.{IsKept};

    ghost Value = { DeskRecord };

    ghost view = { λ d. record { clients = d.clients; jobs = d.jobs.items; batches = d.batches.items; registry = d.registry; entries = d.entries.items; closed = d.closed; turns = d.turns } };

    ghost invariant = { λ d. IsKept (record { clients = d.clients; jobs = d.jobs.items; batches = d.batches.items; registry = d.registry; entries = d.entries.items; closed = d.closed; turns = d.turns }) d.usages.items d.places.items d.batched d.next };
}
