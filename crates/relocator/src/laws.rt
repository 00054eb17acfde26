ghost use Rattle.std.specs.Prelude.{ℕ, List};
ghost use Rattle.cairo_model.specs.Pie.Layouts.{AreInBounds, Fits};
ghost use Rattle.cairo_model.specs.Pie.Records.{PieRecord, KeepsRules};
ghost use Rattle.relocator.specs.Relocations.{KeepsArithmetic, KeepsSteps, KeepsRuns, RunsOverField};

/// Where the arithmetic of values is defined, the field agrees with it, whatever the bases.
pub fn keeps_arithmetic()
    ensures { (bases : List ℕ) → KeepsArithmetic bases }
{}

/// A step over values, relocated, is a step over each field memory that has the relocated cells.
pub fn keeps_steps()
    ensures { (bases : List ℕ) → AreInBounds bases → KeepsSteps bases }
{
    keeps_arithmetic();
}

/// So is a run over values.
pub fn keeps_runs()
    ensures { (bases : List ℕ) → AreInBounds bases → KeepsRuns bases }
{
    keeps_arithmetic();
}

/// At each layout that fits, each run over the cells of a PIE is a run over each field memory that has the relocated
/// cells.
pub fn runs_anywhere()
    ensures { (bases : List ℕ) (pie : PieRecord) → Fits bases pie.sizes → KeepsRules pie → RunsOverField bases pie.cells }
{
    keeps_arithmetic();
}
