ghost use Rattle.std.specs.Prelude.{◌≡◌, ◌++◌, OnOk, IfOk, Err};
ghost use Rattle.seg_runner.specs.Views.{run_cause};
ghost use Rattle.shared_prover_cli.specs.Answers.Run.{no_code, ran};
ghost use Rattle.shared_prover_cli.specs.Answers.RunTexts.{outcome_text, run_cause_text};

use cairo_model::{number_of_fault, put_number, put_pair, put_replay_refusal, put_value};
use casm_text::AsmRefusal;
use seg_runner::RunRefusal;
use std::alloc::{AllocError, Global};

/// The line of a text that has no code.
pub fn assembly_line(alloc: Global, refusal: AsmRefusal) -> Result<Vec<u8>, AllocError>
    ensures { IfOk result (λ text. text.items ≡ outcome_text (no_code refusal)) }
{
    let mut text = b"refused assembly".to_vec(alloc)?;
    match refusal {
        AsmRefusal::Syntax(line) => put_pair(alloc, &mut text, 1, u64::from(line))?,
        AsmRefusal::Label(line) => put_pair(alloc, &mut text, 2, u64::from(line))?,
        AsmRefusal::Range(line) => put_pair(alloc, &mut text, 3, u64::from(line))?,
    }
    text.push(b'\n')?;
    Ok(text)
}

/// The line of a program that doesn't run to a PIE.
pub fn execution_line(alloc: Global, refusal: RunRefusal) -> Result<Vec<u8>, AllocError>
    ensures { IfOk result (λ text. text.items ≡ outcome_text (ran (Err (run_cause refusal)))) }
{
    let mut text = b"refused execution".to_vec(alloc)?;
    put_run_refusal(alloc, &mut text, refusal)?;
    text.push(b'\n')?;
    Ok(text)
}

// Appends the number of a refusal and its fields.
fn put_run_refusal(alloc: Global, text: &mut Vec<u8>, refusal: RunRefusal) -> Result<(), AllocError>
    ensures { OnOk result (text.new.items ≡ text.old.items ++ run_cause_text (run_cause refusal)) }
{
    match refusal {
        RunRefusal::Unknown(n) => put_pair(alloc, text, 1, u64::from(n)),
        RunRefusal::Conflict(n, stands, wanted) => {
            put_pair(alloc, text, 2, u64::from(n))?;
            put_value(alloc, text, stands)?;
            put_value(alloc, text, wanted)
        }
        RunRefusal::Fault(n, fault) => {
            put_pair(alloc, text, 3, u64::from(n))?;
            put_number(alloc, text, number_of_fault(fault))
        }
        RunRefusal::StepLimit(n) => put_pair(alloc, text, 4, u64::from(n)),
        RunRefusal::TooLarge(n) => put_pair(alloc, text, 5, u64::from(n)),
        RunRefusal::Refused(cause) => {
            put_number(alloc, text, 6)?;
            put_replay_refusal(alloc, text, cause)
        }
    }
}
