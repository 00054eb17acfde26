ghost use Rattle.std.specs.Prelude.{◌≡◌, map, IfOk};

use goldi_field::Felt;
use std::alloc::{AllocError, Global};
use std::cmp::Ordering;
use std::hash::{Hash, Hasher};
use std::marker::Model;

/// The outputs of a run: the numbers of its output segment, in order.
#[derive(Debug, Drop)]
pub struct Outputs {
    list: Vec<Felt>,
}

impl Model for Outputs {
    ghost use Rattle.std.specs.Prelude.{List, ℕ, map};

    ghost Value = { List ℕ };

    ghost view = { λ o. map (λ f. f.number) o.list.items };
}

impl Outputs {
    /// The outputs that are these numbers. Takes no memory.
    pub fn of(list: Vec<Felt>) -> Outputs
        ensures { result ≡ map (λ f. f.number) list.items }
    {
        Outputs { list }
    }

    /// The numbers in order. Takes no memory.
    pub fn as_slice(&self) -> &[Felt]
        ensures { map (λ f. f.number) result.now ≡ self.now }
    {
        self.list.as_slice()
    }

    /// The same once more, in memory of its own.
    pub fn try_copy(&self, alloc: Global) -> Result<Outputs, AllocError>
        ensures { IfOk result (λ copy. copy ≡ self.now) }
    {
        Ok(Outputs {
            list: self.list.as_slice().to_vec(alloc)?,
        })
    }
}

impl PartialEq for Outputs {
    ghost use Rattle.std.specs.Prelude.{nat_eq};
    ghost use Rattle.std.specs.Cmp.{partial_equiv_from_equiv};
    ghost use Rattle.std.specs.Cmp.Lexicographic.{nat_list_eq_equiv, pointwise};

    ghost eq = { pointwise nat_eq };

    ghost laws = { partial_equiv_from_equiv nat_list_eq_equiv };

    fn eq(&self, other: &Outputs) -> bool {
        self.as_slice() == other.as_slice()
    }
}

impl Eq for Outputs {
    ghost use Rattle.std.specs.Cmp.Lexicographic.{nat_list_eq_equiv};

    ghost laws = { nat_list_eq_equiv };
}

impl PartialOrd for Outputs {
    ghost use Rattle.std.specs.Prelude.{Some};
    ghost use Rattle.std.specs.Cmp.Lexicographic.{slice_cmp, texts_po};
    ghost use Rattle.std.specs.Ordering.{nat_cmp};

    ghost partial_cmp = { λ a b. Some (slice_cmp nat_cmp a b) };

    ghost laws = { texts_po };

    fn partial_cmp(&self, other: &Outputs) -> Option<Ordering> {
        Some(self.cmp(other))
    }
}

impl Ord for Outputs {
    ghost use Rattle.std.specs.Prelude.{refl};
    ghost use Rattle.std.specs.Cmp.Lexicographic.{nat_list_cmp_total, slice_cmp, texts_ties};
    ghost use Rattle.std.specs.Ordering.{nat_cmp};

    ghost cmp = { slice_cmp nat_cmp };

    ghost total = { nat_list_cmp_total };

    ghost matches_partial_cmp = { λ a b. refl };

    ghost matches_eq = { λ a b. texts_ties a b };

    fn cmp(&self, other: &Outputs) -> Ordering {
        self.as_slice().cmp(other.as_slice())
    }
}

impl Hash for Outputs {
    ghost use Rattle.std.specs.Hash as fed;
    ghost use Rattle.std.proofs.Common.{rules};
    ghost use Rattle.std.specs.Cmp.Rules.{hashing};
    ghost use Rattle.cairo_model.specs.Pie.Facts.{outputs_fed};

    ghost hash_input = { outputs_fed };

    ghost respects_eq = { Prim.search (hashing, rules) };

    fn hash<H: Hasher>(&self, state: &mut H) {
        self.list.as_slice().hash(state);
    }
}
