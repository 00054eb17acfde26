ghost use Rattle.std.specs.Prelude.{◌≡◌, ◌-◌, ℕ, List, IfOk, length};
ghost use Rattle.shared_prover_cli.specs.Answers.CheckTexts.{CheckLine};
ghost use Rattle.cairo_model.specs.Certificate.Acceptance.{MachineAccepts};
ghost use Rattle.cert_format.specs.Feeding.{IsFed};
ghost use Rattle.shared_prover_cli.specs.Working.Checking.{AcceptedReply};
ghost use Rattle.shared_prover_cli.specs.Working.Replies.{reply_view};

use crate::check_texts::{accepted_line, certificate_line, fault_line};
use crate::outputs::outputs_of;
use crate::reply::{Outcome, Reply};
use cairo_model::{Cert, End};
use cert_format::CertReader;
use row_checker::{CHUNKS, accepted_has_no_fault, check_run};
use std::alloc::{AllocError, Global};
use std::thread::Threads;

/// Whether the certificate that the reader was fed is accepted, or else its first fault.
pub fn check_answer<R: Threads + Sync>(
    rt: &R,
    alloc: Global,
    reader: CertReader,
) -> Result<Reply, AllocError>
    ensures { IfOk result (λ reply. (fed : List ℕ) → IsFed reader fed → CheckLine fed (reply_view reply)) }
{
    let cert = match reader.finish() {
        Ok(cert) => cert,
        Err(End::Refused(refusal)) => return Ok(refused(certificate_line(alloc, refusal)?)),
        Err(End::OutOfMemory) => return Err(AllocError),
    };
    accepted_has_no_fault();
    match check_run(rt, alloc, &cert, CHUNKS) {
        Ok(()) => accepted(alloc, &cert),
        Err(End::Refused(fault)) => Ok(refused(fault_line(alloc, fault)?)),
        Err(End::OutOfMemory) => Err(AllocError),
    }
}

// The reply to an accepted certificate.
fn accepted(alloc: Global, cert: &Cert) -> Result<Reply, AllocError>
    requires { MachineAccepts cert.now }
    ensures { IfOk result (λ reply. AcceptedReply cert.now (reply_view reply)) }
{
    let outputs = outputs_of(alloc, cert)?;
    Ok(Reply {
        outcome: Outcome::Done,
        text: accepted_line(alloc, cert.kind, steps_of(cert), outputs.as_slice())?,
    })
}

fn refused(text: Vec<u8>) -> Reply
    ensures { result ≡ record { outcome = Outcome.Refused; text = text } }
{
    Reply {
        outcome: Outcome::Refused,
        text,
    }
}

// The number of states less one.
fn steps_of(cert: &Cert) -> u64
    ensures { result ≡ length cert.now.states - 1 }
{
    (cert.states.len() as u64).saturating_sub(1)
}
