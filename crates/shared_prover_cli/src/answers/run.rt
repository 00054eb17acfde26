ghost use Rattle.std.specs.Prelude.{◌≡◌, ◌<◌, ◌≤◌, IfOk, length};
ghost use Rattle.cairo_model.specs.Limits.{most_cells, offset_limit};
ghost use Rattle.shared_prover_cli.specs.Answers.Run.{line_of_byte as line_of_byte_in, no_code};
ghost use Rattle.shared_prover_cli.specs.Answers.RunTexts.{RunAnswer};
ghost use Rattle.shared_prover_cli.specs.Limits.{input_limit};
ghost use Rattle.shared_prover_cli.specs.Working.Replies.{reply_view};
ghost use Rattle.shared_prover_cli.specs.Working.Running.{CodeReply, TellsOutcome};

use crate::reply::{Outcome, Reply};
use crate::run_texts::{assembly_line, execution_line};
use cairo_model::End;
use cairo_model::limits::MOST_STEPS;
use casm_text::{AsmRefusal, Code, assemble, code_is_small};
use pie_format::write;
use seg_runner::run;
use std::alloc::{AllocError, Global};

/// The PIE of the program whose assembly text the input is, or why it has none.
pub fn run_answer(alloc: Global, input: &[u8]) -> Result<Reply, AllocError>
    requires { length input.now ≤ input_limit }
    ensures { IfOk result (λ reply. RunAnswer input.now (reply_view reply)) }
{
    match str::from_utf8(input) {
        Ok(text) => text_answer(alloc, text),
        Err(error) => {
            let line = line_of_byte(input, error.valid_up_to());
            no_code_reply(alloc, AsmRefusal::Syntax(line))
        }
    }
}

// The line of the byte with this index. Lines count from 1.
fn line_of_byte(bytes: &[u8], index: usize) -> u32
    requires inside { index ≤ length bytes.now }
    requires short { length bytes.now ≤ input_limit }
    ensures { result ≡ line_of_byte_in bytes.now index }
{
    let mut line = 1;
    for byte in &bytes[..index] {
        if *byte == b'\n' {
            line += 1;
        }
    }
    line
}

fn text_answer(alloc: Global, text: &str) -> Result<Reply, AllocError>
    requires { length text.now ≤ input_limit }
    ensures { IfOk result (λ reply. RunAnswer text.now (reply_view reply)) }
{
    code_is_small();
    match assemble(alloc, text) {
        Ok(code) => code_answer(alloc, &code),
        Err(End::Refused(refusal)) => no_code_reply(alloc, refusal),
        Err(End::OutOfMemory) => Err(AllocError),
    }
}

fn code_answer(alloc: Global, code: &Code) -> Result<Reply, AllocError>
    requires words { length code.now.words.items ≤ most_cells }
    requires main { code.now.main < offset_limit }
    ensures { IfOk result (λ reply. CodeReply code.now.words.items code.now.main (reply_view reply)) }
{
    match run(alloc, code, MOST_STEPS) {
        Ok(checked) => Ok(Reply {
            outcome: Outcome::Done,
            text: write(alloc, checked.pie())?,
        }),
        Err(End::Refused(refusal)) => Ok(Reply {
            outcome: Outcome::Refused,
            text: execution_line(alloc, refusal)?,
        }),
        Err(End::OutOfMemory) => Err(AllocError),
    }
}

fn no_code_reply(alloc: Global, refusal: AsmRefusal) -> Result<Reply, AllocError>
    ensures { IfOk result (λ reply. TellsOutcome (no_code refusal) (reply_view reply)) }
{
    Ok(Reply {
        outcome: Outcome::Refused,
        text: assembly_line(alloc, refusal)?,
    })
}
