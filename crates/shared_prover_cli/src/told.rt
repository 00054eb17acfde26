ghost use Rattle.std.specs.Prelude.{◌≡◌};
ghost use Rattle.shared_prover_cli.specs.Working.Replying.{told_alone};

use crate::reply::Reply;
use crate::whole::InputFault;
use desk_core::Desk;

/// A reply, and the desk at which a script was run for it.
#[derive(Drop)]
pub struct Told {
    pub reply: Reply,
    pub desk: Option<Desk>,
}

/// A reply for which no script was run.
pub fn without_desk(replied: Result<Reply, InputFault>) -> Result<Told, InputFault>
    ensures { result ≡ told_alone replied }
{
    match replied {
        Ok(reply) => Ok(Told { reply, desk: None }),
        Err(fault) => Err(fault),
    }
}
