ghost use Rattle.std.specs.Prelude.{ℕ, ◌≤◌};
ghost use Rattle.cairo_model.specs.Pie.Records.{KeepsRules};
ghost use Rattle.work_maker.specs.Accepted.{IsAcceptedGiving, SpellsAdmitted};
ghost use Rattle.work_maker.specs.Down.{down_outputs, down_pie};
ghost use Rattle.work_maker.specs.Generator.{down_digits, rounds_of_job};
ghost use Rattle.work_maker.specs.Limits.{most_rounds};

/// The PIE of DOWN keeps the rules of PIEs, so that it has a file.
pub fn down_keeps_rules()
    ensures { (rounds : ℕ) → rounds ≤ most_rounds → KeepsRules (down_pie rounds) }
{}

/// The PIE of DOWN with one round or more is accepted alone, by its isolated run, and gives the output 1.
pub fn down_is_accepted()
    ensures { (rounds : ℕ) → 1 ≤ rounds → rounds ≤ most_rounds → IsAcceptedGiving (down_pie rounds) down_outputs }
{}

/// What each job of a script hands in is a file in hexadecimal whose PIE is admitted, and gives the output 1.
pub fn made_jobs_are_admitted()
    ensures { (job : ℕ) → SpellsAdmitted (down_digits (rounds_of_job job)) down_outputs }
{}
