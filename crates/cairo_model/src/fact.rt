ghost use Rattle.std.specs.Prelude.{◌≡◌, IfOk};

use crate::outputs::Outputs;
use builtin_hash::ProgramHash;
use std::alloc::{AllocError, Global};
use std::cmp::Ordering;
use std::hash::{Hash, Hasher};
use std::marker::Model;

/// What a run shows: the program of this hash gave these outputs. Facts are ordered by the words of the hash, and then by
/// the outputs, each lexicographically.
#[derive(Debug, Drop)]
pub struct Fact {
    pub program: ProgramHash,
    pub outputs: Outputs,
}

impl Model for Fact {
    ghost use Rattle.cairo_model.specs.Pie.Acceptance.{FactRecord};

    ghost Value = { FactRecord };

    ghost view = { λ f. record { program = f.program.words; outputs = f.outputs } };
}

impl Fact {
    /// The same once more, in memory of its own.
    pub fn try_copy(&self, alloc: Global) -> Result<Fact, AllocError>
        ensures { IfOk result (λ copy. copy ≡ self.now) }
    {
        Ok(Fact {
            program: self.program,
            outputs: self.outputs.try_copy(alloc)?,
        })
    }
}

impl PartialEq for Fact {
    ghost use Rattle.std.proofs.Common.{rules};
    ghost use Rattle.std.specs.Cmp.Rules.{comparing};
    ghost use Rattle.cairo_model.specs.Pie.FactOrder.{same_fact};

    ghost eq = { same_fact };

    ghost laws = { Prim.search (comparing, rules) };

    fn eq(&self, other: &Fact) -> bool {
        self.program == other.program && self.outputs == other.outputs
    }
}

impl Eq for Fact {
    ghost use Rattle.std.proofs.Common.{rules};
    ghost use Rattle.std.specs.Cmp.Rules.{comparing};

    ghost laws = { Prim.search (comparing, rules) };
}

impl PartialOrd for Fact {
    ghost use Rattle.std.proofs.Common.{rules};
    ghost use Rattle.std.specs.Cmp.{partial_order_from_own_ties};
    ghost use Rattle.std.specs.Cmp.Rules.{comparing};
    ghost use Rattle.std.specs.Ordering.{as_partial_cmp};
    ghost use Rattle.cairo_model.specs.Pie.FactOrder.{fact_order};

    ghost partial_cmp = { as_partial_cmp fact_order };

    ghost laws = { partial_order_from_own_ties (Prim.search (comparing, rules)) (Prim.search (comparing, rules)) };

    fn partial_cmp(&self, other: &Fact) -> Option<Ordering> {
        Some(self.cmp(other))
    }
}

impl Ord for Fact {
    ghost use Rattle.std.proofs.Common.{rules};
    ghost use Rattle.std.specs.Cmp.Rules.{comparing};
    ghost use Rattle.cairo_model.specs.Pie.FactOrder.{fact_order};

    ghost cmp = { fact_order };

    ghost total = { Prim.search (comparing, rules) };

    ghost matches_partial_cmp = { Prim.search (comparing, rules) };

    ghost matches_eq = { Prim.search (comparing, rules) };

    fn cmp(&self, other: &Fact) -> Ordering {
        self.program
            .cmp(&other.program)
            .then(self.outputs.cmp(&other.outputs))
    }
}

impl Hash for Fact {
    ghost use Rattle.std.proofs.Common.{rules};
    ghost use Rattle.std.specs.Cmp.Rules.{hashing};
    ghost use Rattle.cairo_model.specs.Pie.Facts.{fact_fed};

    ghost hash_input = { fact_fed };

    ghost respects_eq = { Prim.search (hashing, rules) };

    fn hash<H: Hasher>(&self, state: &mut H) {
        self.program.hash(state);
        self.outputs.hash(state);
    }
}
