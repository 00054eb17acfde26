ghost use Rattle.std.specs.Prelude.{IfOk};
ghost use Rattle.shared_prover_cli.specs.Answers.Replay.{ReplayAnswer};
ghost use Rattle.shared_prover_cli.specs.Working.Replies.{reply_view};

use crate::reply::{Outcome, Reply};
use crate::texts::{admitted_line, refusal_line};
use cairo_model::End;
use pie_replay::admit;
use std::alloc::{AllocError, Global};

/// Whether the PIE whose file the input is, is accepted alone.
pub fn replay_answer(alloc: Global, input: &[u8]) -> Result<Reply, AllocError>
    ensures { IfOk result (λ reply. ReplayAnswer input.now (reply_view reply)) }
{
    match admit(alloc, input) {
        Ok(checked) => Ok(Reply {
            outcome: Outcome::Done,
            text: admitted_line(alloc, checked.fact())?,
        }),
        Err(End::Refused(refusal)) => Ok(Reply {
            outcome: Outcome::Refused,
            text: refusal_line(alloc, refusal)?,
        }),
        Err(End::OutOfMemory) => Err(AllocError),
    }
}
