ghost use Rattle.std.specs.Prelude.{◌≡◌, ◌++◌, OnOk, IfOk, map, option_map};
ghost use Rattle.boot_program.specs.Faults.Records.{fault_cause};
ghost use Rattle.cairo_model.specs.Views.Certificate.{kind_of};
ghost use Rattle.shared_prover_cli.specs.Answers.Check.{faulty, no_certificate};
ghost use Rattle.shared_prover_cli.specs.Answers.CheckTexts.{accepted_text, cause_number, check_text, fault_text, kind_text, optional_text};

use boot_program::{RowCause, RunFault};
use cairo_model::{Kind, Value, number_of_fault, put_number, put_numbers, put_pair, put_value};
use cert_format::CertRefusal;
use goldi_field::Felt;
use std::alloc::{AllocError, Global};

/// The line of a certificate that is accepted.
pub fn accepted_line(
    alloc: Global,
    kind: Kind,
    steps: u64,
    outputs: &[Felt],
) -> Result<Vec<u8>, AllocError>
    ensures { IfOk result (λ text. text.items ≡ accepted_text (kind_of kind) steps (map (λ f. f.number) outputs.now)) }
{
    let mut text = kind_line(alloc, kind)?;
    put_number(alloc, &mut text, steps)?;
    text.extend_from_slice(b" outputs")?;
    put_numbers(alloc, &mut text, outputs)?;
    text.push(b'\n')?;
    Ok(text)
}

// How the line of an accepted certificate begins.
fn kind_line(alloc: Global, kind: Kind) -> Result<Vec<u8>, AllocError>
    ensures { IfOk result (λ text. text.items ≡ kind_text (kind_of kind)) }
{
    match kind {
        Kind::Alone => b"accepted alone".to_vec(alloc),
        Kind::Batch => b"accepted batch".to_vec(alloc),
    }
}

/// The line of a refused certificate.
pub fn certificate_line(alloc: Global, refusal: CertRefusal) -> Result<Vec<u8>, AllocError>
    ensures { IfOk result (λ text. text.items ≡ check_text (no_certificate refusal)) }
{
    let mut text = b"refused certificate".to_vec(alloc)?;
    match refusal {
        CertRefusal::BadMagic => put_number(alloc, &mut text, 1)?,
        CertRefusal::Truncated(length) => put_pair(alloc, &mut text, 2, length)?,
        CertRefusal::BadNumber(place) => put_pair(alloc, &mut text, 3, place)?,
        CertRefusal::Order(place) => put_pair(alloc, &mut text, 4, place)?,
        CertRefusal::Trailing(count) => put_pair(alloc, &mut text, 5, count)?,
    }
    text.push(b'\n')?;
    Ok(text)
}

/// The line of a certificate that isn't accepted.
pub fn fault_line(alloc: Global, fault: RunFault) -> Result<Vec<u8>, AllocError>
    ensures { IfOk result (λ text. text.items ≡ check_text (faulty (fault_cause fault))) }
{
    let mut text = b"refused run".to_vec(alloc)?;
    put_fault(alloc, &mut text, fault)?;
    text.push(b'\n')?;
    Ok(text)
}

// Appends the number of a fault and its fields.
fn put_fault(alloc: Global, text: &mut Vec<u8>, fault: RunFault) -> Result<(), AllocError>
    ensures { OnOk result (text.new.items ≡ text.old.items ++ fault_text (fault_cause fault)) }
{
    match fault {
        RunFault::Boot(address) => put_pair(alloc, text, 1, address),
        RunFault::Start(k) => put_pair(alloc, text, 2, u64::from(k)),
        RunFault::End(k) => put_pair(alloc, text, 3, u64::from(k)),
        RunFault::Range(i) => put_pair(alloc, text, 4, u64::from(i)),
        RunFault::Hash(i) => put_pair(alloc, text, 5, u64::from(i)),
        RunFault::Row(n, cause) => {
            put_pair(alloc, text, 6, u64::from(n))?;
            put_number(alloc, text, number_of_cause(cause))
        }
        RunFault::Output(i, stands, wanted) => {
            put_pair(alloc, text, 7, u64::from(i))?;
            put_optional(alloc, text, stands)?;
            put_optional(alloc, text, wanted)
        }
        RunFault::Task(i, place) => {
            put_pair(alloc, text, 8, u64::from(i))?;
            put_value(alloc, text, Value::At(place))
        }
    }
}

// Appends a number, or a dash where there is none, after one space.
fn put_optional(alloc: Global, text: &mut Vec<u8>, number: Option<Felt>) -> Result<(), AllocError>
    ensures { OnOk result (text.new.items ≡ text.old.items ++ optional_text (option_map (λ f. f.number) number)) }
{
    match number {
        Some(number) => put_number(alloc, text, number.value()),
        None => text.extend_from_slice(b" -"),
    }
}

fn number_of_cause(cause: RowCause) -> u64
    ensures { result ≡ cause_number cause }
{
    match cause {
        RowCause::Fault(fault) => number_of_fault(fault),
        RowCause::Next => 11,
    }
}
