ghost use Rattle.row_checker.specs.Laws.{AcceptedHasNoFault, CertifiedHasNoFault, OneFirstBatchFault, OneFirstRunFault};

/// No cause applies to a certificate that the machine accepts, and that is of the bootloader's run where it is of a batch.
pub fn accepted_has_no_fault()
    ensures { AcceptedHasNoFault }
{}

/// A certificate has one first fault at most.
pub fn one_first_run_fault()
    ensures { OneFirstRunFault }
{}

/// No cause applies to a certificate that is accepted as a batch of these tasks, each of which stands in it.
pub fn certified_has_no_fault()
    ensures { CertifiedHasNoFault }
{}

/// A certificate has one first fault at most with these tasks.
pub fn one_first_batch_fault()
    ensures { OneFirstBatchFault }
{}
