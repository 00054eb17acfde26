ghost use Rattle.std.specs.Prelude.{◌≡◌, ℕ, List, Result};
ghost use Rattle.cairo_model.specs.Machine.Steps.{Registers};
ghost use Rattle.cairo_model.specs.Machine.Values.{Datum};
ghost use Rattle.cairo_model.specs.Pie.Acceptance.{AcceptedWith, FactRecord};
ghost use Rattle.cairo_model.specs.Pie.Records.{PieRecord};
ghost use Rattle.seg_runner.specs.Answers.{IsRunAnswer, RunsToPie};
ghost use Rattle.seg_runner.specs.Refusals.{RunCause};
ghost use Rattle.seg_runner.specs.Runs.{states_of};

use pie_replay::{accepted_has_no_cause, one_first_replay_cause};

/// A program has one answer within a limit: so `run` gives its PIE, or names its cause, exactly where that is its answer.
pub fn one_run_answer()
    ensures { (words : List ℕ) (main limit : ℕ) (a b : Result PieRecord RunCause) → IsRunAnswer words main limit a → IsRunAnswer words main limit b → a ≡ b }
{
    accepted_has_no_cause();
    one_first_replay_cause();
}

/// The states that a run goes through while code, frame and rules put its cells are those of the isolated run of its PIE.
pub fn states_are_isolated()
    ensures { (words : List ℕ) (main limit : ℕ) (pie : PieRecord) (fact : FactRecord) (states : List (Registers Datum)) (r : RunsToPie words main limit pie) → AcceptedWith pie fact states → states ≡ states_of r.runs }
{}
