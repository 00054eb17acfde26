ghost use Rattle.std.specs.Prelude.{◌≡◌, ◌↔◌, [], Contains, IfOk, IsTrue, OnErr, OnOk};
ghost use Rattle.std.specs.List.Sorted.{IsPermutation, IsSorted};
ghost use Rattle.cairo_model.specs.Pie.FactOrder.{fact_order};
ghost use Rattle.fact_registry.specs.Registries.{AreDistinctFacts, outputs_under, with_facts};

use builtin_hash::ProgramHash;
use cairo_model::{Fact, Outputs};
use indexmap::IndexSet;
use std::alloc::{AllocError, Global};
use std::marker::Model;

/// A set of facts, seen as the list of them in the order of their registration.
#[derive(Drop)]
pub struct Registry {
    facts: IndexSet<Fact>,
}

impl Model for Registry {
    ghost use Rattle.std.specs.Prelude.{List};
    ghost use Rattle.cairo_model.specs.Pie.Acceptance.{FactRecord};
    ghost use Rattle.fact_registry.specs.Registries.{AreDistinctFacts};

    ghost Value = { List FactRecord };

    ghost view = { λ r. r.facts.keys };

    ghost invariant = { λ r. AreDistinctFacts r.facts.keys };
}

impl Registry {
    /// A registry with no fact. It takes no memory before the first one comes.
    pub fn new(alloc: Global) -> Registry
        ensures { result ≡ [] }
    {
        Registry {
            facts: IndexSet::new(alloc),
        }
    }

    /// Whether the fact is registered. Takes no memory.
    pub fn holds(&self, fact: &Fact) -> bool
        ensures { IsTrue result ↔ Contains self.now fact.now }
    {
        self.facts.contains(fact)
    }

    /// The outputs of the program's facts, in the order of registration.
    pub fn outputs_of(
        &self,
        alloc: Global,
        program: &ProgramHash,
    ) -> Result<Vec<Outputs>, AllocError>
        ensures { IfOk result (λ found. found.items ≡ outputs_under program.now.words self.now) }
    {
        let mut found = Vec::new(alloc);
        for fact in self.facts.as_slice() {
            if fact.program == *program {
                found.push(fact.outputs.try_copy(alloc)?)?;
            }
        }
        Ok(found)
    }

    /// Puts each fact last that isn't there yet, one after the other. After want of memory the registry is as before.
    pub fn add_all(&mut self, facts: Vec<Fact>) -> Result<(), AllocError>
        ensures added { OnOk result (self.new ≡ with_facts self.old facts.items) }
        ensures unchanged { OnErr result (self.new ≡ self.old) }
        ensures distinct { AreDistinctFacts self.new }
    {
        let before = self.facts.len();
        for fact in facts {
            if self.facts.insert(fact).is_err() {
                self.facts.truncate(before);
                return Err(AllocError);
            }
        }
        Ok(())
    }

    /// All facts by their order.
    pub fn sorted(&self, alloc: Global) -> Result<Vec<Fact>, AllocError>
        ensures same { IfOk result (λ facts. IsPermutation self.now facts.items) }
        ensures order { IfOk result (λ facts. IsSorted fact_order facts.items) }
    {
        let mut facts = copies(alloc, self.facts.as_slice())?;
        facts.sort()?;
        Ok(facts)
    }
}

// The facts once more, in memory of their own.
fn copies(alloc: Global, facts: &[Fact]) -> Result<Vec<Fact>, AllocError>
    ensures { IfOk result (λ copies. copies.items ≡ facts.now) }
{
    let mut copies = Vec::with_capacity(alloc, facts.len())?;
    for fact in facts {
        copies.push(fact.try_copy(alloc)?)?;
    }
    Ok(copies)
}
