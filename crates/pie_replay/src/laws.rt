ghost use Rattle.std.specs.Prelude.{◌≡◌, ℕ, List};
ghost use Rattle.cairo_model.specs.Pie.Acceptance.{AcceptedAlone};
ghost use Rattle.cairo_model.specs.Pie.Records.{PieRecord};
ghost use Rattle.cairo_model.specs.Refusals.ReplayRefusals.{IsFirstReplayCause, IsReplayCause, ReplayCause};
ghost use Rattle.cairo_model.specs.Refusals.Verdicts.{IsVerdict, Verdict};

use pie_format::{one_first_read_cause, one_pie, pie_has_no_cause};

/// A PIE that is accepted alone has no cause against it.
pub fn accepted_has_no_cause()
    ensures { (pie : PieRecord) → AcceptedAlone pie → (cause : ReplayCause) → ¬ IsReplayCause pie cause }
{}

/// A PIE has one first cause against it at most.
pub fn one_first_replay_cause()
    ensures { (pie : PieRecord) (c d : ReplayCause) → IsFirstReplayCause pie c → IsFirstReplayCause pie d → c ≡ d }
{}

/// The bytes of a file have one verdict at most.
pub fn one_verdict()
    ensures { (bytes : List ℕ) (v w : Verdict) → IsVerdict bytes v → IsVerdict bytes w → v ≡ w }
{
    one_pie();
    pie_has_no_cause();
    one_first_read_cause();
}
