ghost use Rattle.std.specs.Prelude.{◌≡◌, ◌≤◌, [], replicate, ◌*◌, None, IfOk};
ghost use Rattle.desk_core.specs.Kept.{usage_of};
ghost use Rattle.desk_core.specs.Limits.{most_client_pies, most_clients};
ghost use Rattle.desk_core.specs.Turns.{IsNewDesk};

use crate::desk::Desk;
use crate::limits::MOST_CLIENT_PIES;
use crate::usage::Usage;
use fact_registry::Registry;
use std::alloc::{AllocError, Global};

impl Desk {
    /// The empty desk of so many clients.
    pub fn new(alloc: Global, clients: u32) -> Result<Desk, AllocError>
        requires some { 1 ≤ clients }
        requires few { clients ≤ most_clients }
        ensures { IfOk result (IsNewDesk clients) }
    {
        Ok(Desk {
            clients,
            jobs: Vec::new(alloc),
            batches: Vec::new(alloc),
            registry: Registry::new(alloc),
            // Room to close it.
            entries: Vec::with_capacity(alloc, 1)?,
            closed: false,
            turns: 0,
            usages: no_usages(alloc, clients)?,
            places: no_places(alloc, clients)?,
            batched: 0,
            next: 0,
        })
    }
}

// A usage of nothing for each of so many clients.
fn no_usages(alloc: Global, clients: u32) -> Result<Vec<Usage>, AllocError>
    ensures { IfOk result (λ usages. usages.items ≡ replicate clients (usage_of [])) }
{
    let none = Usage {
        pies: 0,
        steps: 0,
        cells: 0,
    };
    vec![in alloc; none; clients as usize]
}

// A table for so many clients with no job in it.
fn no_places(alloc: Global, clients: u32) -> Result<Vec<Option<u32>>, AllocError>
    ensures { IfOk result (λ places. places.items ≡ replicate (clients * most_client_pies) None) }
{
    vec![in alloc; None; clients as usize * MOST_CLIENT_PIES as usize]
}
