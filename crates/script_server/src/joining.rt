ghost use Rattle.std.specs.Prelude.{◌≡◌, ◌≤◌, ◌+◌, true, [], All, vec_len, vec_capacity};
ghost use Rattle.std.specs.List.{AllZip};
ghost use Rattle.script_server.specs.Working.Closing.{SeesOn};
ghost use Rattle.script_server.specs.Working.Threads.{HasGivenDone, HaveCome, IsClientAt};
ghost use Rattle.turn_lock.specs.Journals.{IsPrefix};

use crate::clients::Client;
use crate::workers::Worker;
use session_desk::{Held, SharedDesk};
use std::thread::Threads;
use turn_lock::Pass;

/// Waits for the end of each client, whose pass the caller's own then meets. Says whether each did all its lines.
pub(crate) fn join_clients<R: Threads>(
    rt: &R,
    desk: &SharedDesk,
    own: &mut Pass<Held>,
    clients: Vec<Client>,
    mut passes: Vec<Pass<Held>>,
) -> (Vec<Pass<Held>>, bool)
    requires own { own.old.lock ≡ desk.now.lock }
    requires locks { All (IsClientAt desk.now.lock) clients.items }
    requires empty { passes.items ≡ [] }
    requires room { vec_len clients ≤ vec_capacity passes }
    ensures own { SeesOn own.old own.new }
    ensures given { result.1 ≡ true → AllZip HasGivenDone clients.items result.0.items }
    ensures met { All (λ p. IsPrefix p.seen own.new.seen) result.0.items }
    ensures len { vec_len result.0 ≡ vec_len clients }
    ensures room { vec_capacity passes ≤ vec_capacity result.0 }
{
    let mut done = true;
    for client in clients {
        let (mut pass, did) = client.join(rt);
        desk.meet(own, &mut pass);
        let all = both(done, did);
        done = all;
        let Ok(()) = passes.push(pass) else {
            unreachable!()
        };
    }
    (passes, done)
}

fn both(one: bool, other: bool) -> bool
    ensures { result ≡ true → (one ≡ true) × (other ≡ true) }
{
    one && other
}

/// Waits for the end of each worker.
pub(crate) fn join_workers<R: Threads>(
    rt: &R,
    workers: Vec<Worker>,
    mut passes: Vec<Pass<Held>>,
) -> Vec<Pass<Held>>
    requires room { vec_len passes + vec_len workers ≤ vec_capacity passes }
    ensures came { HaveCome workers.items passes.items result.items }
    ensures len { vec_len result ≡ vec_len passes + vec_len workers }
    ensures room { vec_capacity passes ≤ vec_capacity result }
{
    for worker in workers {
        let Ok(()) = passes.push(worker.join(rt)) else {
            unreachable!()
        };
    }
    passes
}
