ghost use Rattle.std.specs.Prelude.{◌≡◌};
ghost use Rattle.desk_core.specs.GoodDesks.{IsGoodDesk};

use crate::batch::Batch;
use crate::desk::Desk;
use crate::entry::Entry;
use crate::job::Job;
use fact_registry::Registry;

impl Desk {
    /// How many clients the desk has.
    pub fn clients(&self) -> u32
        ensures clients { result ≡ self.now.clients }
        ensures good { IsGoodDesk self.now }
    {
        self.clients
    }

    /// The jobs in the order of their admission.
    pub fn jobs(&self) -> &[Job]
        ensures { result.now ≡ self.now.jobs }
    {
        self.jobs.as_slice()
    }

    /// The batches in the order of their sealing; a batch's number is its index.
    pub fn batches(&self) -> &[Batch]
        ensures { result.now ≡ self.now.batches }
    {
        self.batches.as_slice()
    }

    /// The facts of the registered batches.
    pub fn registry(&self) -> &Registry
        ensures { result.now ≡ self.now.registry }
    {
        &self.registry
    }

    /// The journal, with each entry's event, pass and reply.
    pub fn entries(&self) -> &[Entry]
        ensures { result.now ≡ self.now.entries }
    {
        self.entries.as_slice()
    }

    /// Whether the desk is closed.
    pub fn is_closed(&self) -> bool
        ensures { result ≡ self.now.closed }
    {
        self.closed
    }

    /// How many turns were taken, modulo 2^64.
    pub fn turns(&self) -> u64
        ensures { result ≡ self.now.turns }
    {
        self.turns
    }
}
