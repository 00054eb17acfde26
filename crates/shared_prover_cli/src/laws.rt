ghost use Rattle.std.specs.Prelude.{◌≡◌, ◌≢◌, ℕ, ◌≤◌, ◌^◌, List, Option, Some};
ghost use Rattle.cairo_model.specs.Pie.Acceptance.{CheckedRecord};
ghost use Rattle.cairo_model.specs.Refusals.Verdicts.{IsVerdict, admitted};
ghost use Rattle.desk_core.specs.DeskRecords.{DeskRecord};
ghost use Rattle.desk_script.specs.Lines.{ScriptLine};
ghost use Rattle.desk_script.specs.Scripts.{IsScript};
ghost use Rattle.script_runner.specs.Serving.{ServesScript};
ghost use Rattle.shared_prover_cli.specs.Answers.Scripts.{DidScript};
ghost use Rattle.shared_prover_cli.specs.Commands.{AnswerOf, RunsNoScript};
ghost use Rattle.shared_prover_cli.specs.Replies.{ReplyRecord};

use casm_text::{assembles_without_cause, one_assembly, one_first_cause, one_listing};
use cert_format::{one_certificate, one_first_cert_cause};
use command_words::Command;
use desk_script::script_is_not_refused;
use pie_replay::one_verdict;
use relocator::one_lone_certificate;
use row_checker::one_first_run_fault;
use seg_runner::one_run_answer;

/// A command that runs no script has one answer to an input: one status, and one text.
pub fn one_answer()
    ensures { (command : Command) (input : List ℕ) (reply other : ReplyRecord) (desk others : Option DeskRecord) → RunsNoScript command
        → AnswerOf command input reply desk → AnswerOf command input other others → reply ≡ other }
{
    one_verdict();
    one_lone_certificate();
    one_certificate();
    one_first_cert_cause();
    one_first_run_fault();
    one_listing();
    assembles_without_cause();
    one_assembly();
    one_first_cause();
    one_run_answer();
}

/// What `run` writes at status 0 is the file of a PIE that is accepted alone, so that `replay` admits it.
pub fn run_is_admitted()
    ensures { (input : List ℕ) (reply : ReplyRecord) (desk : Option DeskRecord) → AnswerOf Command.Run input reply desk → reply.status ≡ 0
        → (found : CheckedRecord) × IsVerdict reply.text (admitted found) }
{}

/// A command that runs no script never answers that one is refused.
pub fn no_script_refused()
    ensures { (command : Command) (input : List ℕ) (reply : ReplyRecord) (desk : Option DeskRecord) → RunsNoScript command
        → AnswerOf command input reply desk → reply.status ≢ 3 }
{}

/// A script is run or served: neither `batch` nor `export` nor `serve` refuses it as a script, and the replies of `batch` and `serve` have status 0.
pub fn script_is_run()
    ensures batch { (clients : ℕ) (input : List ℕ) (lines : List ScriptLine) (reply : ReplyRecord) (desk : Option DeskRecord) → clients ≤ 2 ^ 32 → IsScript clients input lines
        → AnswerOf (Command.Batch clients) input reply desk → reply.status ≡ 0 }
    ensures export { (clients batch : ℕ) (input : List ℕ) (lines : List ScriptLine) (reply : ReplyRecord) (desk : Option DeskRecord) → clients ≤ 2 ^ 32 → IsScript clients input lines
        → AnswerOf (Command.Export clients batch) input reply desk → reply.status ≢ 3 }
    ensures serve { (clients workers : ℕ) (input : List ℕ) (lines : List ScriptLine) (reply : ReplyRecord) (desk : Option DeskRecord) → clients ≤ 2 ^ 32 → IsScript clients input lines
        → AnswerOf (Command.Serve clients workers) input reply desk → reply.status ≡ 0 }
{
    script_is_not_refused();
}

/// The desk that `serve` hands out at status 0 served the script that the input is.
pub fn script_is_served()
    ensures { (clients workers : ℕ) (input : List ℕ) (reply : ReplyRecord) (desk : Option DeskRecord) → AnswerOf (Command.Serve clients workers) input reply desk
        → reply.status ≡ 0 → (d : DeskRecord) × (desk ≡ Some d) × DidScript ServesScript clients input d }
{}
