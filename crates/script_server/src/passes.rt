ghost use Rattle.std.specs.Prelude.{◌≡◌, ◌<◌, ◌+◌, ◌^◌, ◌∷◌, ◌++◌, [], IfOk, vec_len};
ghost use Rattle.script_server.specs.Working.Dealing.{HasRoomFor};

use crate::clients::Client;
use crate::workers::Worker;
use session_desk::Held;
use std::alloc::{AllocError, Global};
use turn_lock::Pass;

/// The passes of the clients, of the workers and of the caller.
#[derive(Drop)]
pub(crate) struct Dealt {
    pub(crate) clients: Vec<Pass<Held>>,
    pub(crate) workers: Vec<Pass<Held>>,
    pub(crate) own: Pass<Held>,
}

/// Deals the passes of a new desk: those of so many clients come first, and the caller's own is the last.
pub(crate) fn deal(mut passes: Vec<Pass<Held>>, clients: u32) -> Result<Dealt, AllocError>
    requires some { clients < vec_len passes }
    ensures clients { IfOk result (λ d. vec_len d.clients ≡ clients) }
    ensures all { IfOk result (λ d. passes.items ≡ d.clients.items ++ (d.workers.items ++ d.own ∷ [])) }
{
    let mut workers = passes.split_off(clients as usize)?;
    let Some(own) = workers.pop() else {
        unreachable!()
    };
    Ok(Dealt {
        clients: passes,
        workers,
        own,
    })
}

/// Room for what the threads leave, so that none is wanted once the first has started.
#[derive(Drop)]
pub(crate) struct Reserved {
    pub(crate) clients: Vec<Client>,
    pub(crate) workers: Vec<Worker>,
    pub(crate) ended: Vec<Pass<Held>>,
}

/// Reserves room for so many clients and workers, and for the caller's own pass.
pub(crate) fn reserve(alloc: Global, clients: usize, workers: usize) -> Result<Reserved, AllocError>
    requires few { clients + workers < 2 ^ 32 }
    ensures room { IfOk result (HasRoomFor clients workers) }
{
    Ok(Reserved {
        clients: Vec::with_capacity(alloc, clients)?,
        workers: Vec::with_capacity(alloc, workers)?,
        ended: Vec::with_capacity(alloc, clients + workers + 1)?,
    })
}
