ghost use Rattle.std.specs.Prelude.{◌≤◌, IfOk};
ghost use Rattle.work_maker.specs.Limits.{most_jobs};
ghost use Rattle.shared_prover_cli.specs.Answers.Make.{MakeAnswer};
ghost use Rattle.shared_prover_cli.specs.Working.Replies.{reply_view};

use crate::reply::{Outcome, Reply};
use std::alloc::{AllocError, Global};
use work_maker::make_script;

/// The script of so many jobs, as an answer.
pub fn make_answer(alloc: Global, jobs: u32) -> Result<Reply, AllocError>
    requires { jobs ≤ most_jobs }
    ensures { IfOk result (λ reply. MakeAnswer jobs (reply_view reply)) }
{
    Ok(Reply {
        outcome: Outcome::Done,
        text: make_script(alloc, jobs)?,
    })
}
