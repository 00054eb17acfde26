ghost use Rattle.cairo_step.specs.Laws.{EquationsAreSteps};

/// A law for callers' proofs, which does nothing when it runs: the equations of a row hold exactly where the machine
/// can go from the one state to the other.
pub fn equations_are_steps()
    ensures { EquationsAreSteps }
{}
