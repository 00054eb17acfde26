ghost use Rattle.std.specs.Prelude.{◌≡◌, map, IfOk};
ghost use Rattle.cairo_model.specs.Pie.Acceptance.{AcceptedWith};
ghost use Rattle.cairo_model.specs.Pie.Shapes.{shape_of};
ghost use Rattle.cairo_model.specs.Views.Machine.{registers};

use crate::fact::Fact;
use crate::pie::Pie;
use crate::pie_copy::{copied, size_in_all};
use crate::shape::Shape;
use crate::state::State;
use std::alloc::{AllocError, Global};
use std::marker::Model;

/// A PIE that is accepted alone, with its fact and the states of its isolated run.
#[derive(Debug, Drop)]
pub struct Checked {
    pie: Pie,
    fact: Fact,
    states: Vec<State>,
}

impl Model for Checked {
    ghost use Rattle.std.specs.Prelude.{map};
    ghost use Rattle.cairo_model.specs.Pie.Acceptance.{CheckedRecord, AcceptedWith};
    ghost use Rattle.cairo_model.specs.Views.Machine.{registers};

    ghost Value = { CheckedRecord };

    ghost view = { λ c. record { pie = c.pie; fact = c.fact; states = map registers c.states.items } };

    ghost invariant = { λ c. AcceptedWith c.pie c.fact (map registers c.states.items) };
}

impl Checked {
    /// A PIE that is accepted alone with just this fact and these states. Takes no memory.
    pub fn of(pie: Pie, fact: Fact, states: Vec<State>) -> Checked
        requires { AcceptedWith pie fact (map registers states.items) }
        ensures pie { result.pie ≡ pie }
        ensures fact { result.fact ≡ fact }
        ensures states { result.states ≡ map registers states.items }
    {
        Checked { pie, fact, states }
    }

    /// The PIE itself.
    pub fn pie(&self) -> &Pie
        ensures { result.now ≡ self.now.pie }
    {
        &self.pie
    }

    /// What its isolated run shows.
    pub fn fact(&self) -> &Fact
        ensures { result.now ≡ self.now.fact }
    {
        &self.fact
    }

    /// The states of the isolated run, one more than its steps.
    pub fn states(&self) -> &[State]
        ensures states { map registers result.now ≡ self.now.states }
        ensures accepted { AcceptedWith self.now.pie self.now.fact self.now.states }
    {
        self.states.as_slice()
    }

    /// How much its isolated run takes, in steps and in cells.
    pub fn shape(&self) -> Shape
        ensures { result ≡ shape_of self.now.pie }
    {
        Shape {
            steps: self.pie.steps,
            size: size_in_all(&self.pie),
        }
    }

    /// The same once more, in memory of its own.
    pub fn try_copy(&self, alloc: Global) -> Result<Checked, AllocError>
        ensures { IfOk result (λ copy. copy ≡ self.now) }
    {
        Ok(Checked {
            pie: copied(alloc, &self.pie)?,
            fact: self.fact.try_copy(alloc)?,
            states: self.states.as_slice().to_vec(alloc)?,
        })
    }
}
