ghost use Rattle.batch_plan.specs.Plans.{PlansHold};
ghost use Rattle.batch_plan.specs.WorkedPlans.{WorkedPlans};

/// Where each task of a batch has sizes that a PIE may have, its plan keeps all parts apart and in order, below 2^32.
pub fn plans_hold()
    ensures { PlansHold }
{}

/// The plans of FIVE alone, of EMPTY with FIVE twice, and of TALL with FIVE are those worked out by hand.
pub fn plans_by_hand()
    ensures { WorkedPlans }
{}
