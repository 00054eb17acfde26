ghost use Rattle.std.specs.Prelude.{IfOk};
ghost use Rattle.cairo_model.specs.Refusals.Verdicts.{admitted};
ghost use Rattle.shared_prover_cli.specs.Answers.Place.{IsPlaced, PlaceAnswer};
ghost use Rattle.shared_prover_cli.specs.Working.Replies.{reply_view};

use crate::reply::{Outcome, Reply};
use crate::texts::refusal_line;
use cairo_model::{Checked, End};
use cert_format::write_cert;
use pie_replay::admit;
use relocator::lone_cert;
use std::alloc::{AllocError, Global};

/// The certificate of the PIE whose file the input is, where it is accepted alone.
pub fn place_answer(alloc: Global, input: &[u8]) -> Result<Reply, AllocError>
    ensures { IfOk result (λ reply. PlaceAnswer input.now (reply_view reply)) }
{
    match admit(alloc, input) {
        Ok(checked) => Ok(Reply {
            outcome: Outcome::Done,
            text: certificate_bytes(alloc, &checked)?,
        }),
        Err(End::Refused(refusal)) => Ok(Reply {
            outcome: Outcome::Refused,
            text: refusal_line(alloc, refusal)?,
        }),
        Err(End::OutOfMemory) => Err(AllocError),
    }
}

fn certificate_bytes(alloc: Global, checked: &Checked) -> Result<Vec<u8>, AllocError>
    ensures { IfOk result (λ bytes. IsPlaced (admitted checked.now) bytes.items) }
{
    write_cert(alloc, &lone_cert(alloc, checked)?)
}
