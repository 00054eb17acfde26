ghost use Rattle.std.specs.Prelude.{◌≡◌, All};
ghost use Rattle.goldi_field.specs.Numbers.{IsFelt};
ghost use Rattle.cairo_model.specs.Pie.Layouts.{Fits};
ghost use Rattle.relocator.specs.Working.Lists.{numbers};
ghost use Rattle.batch_runner.specs.Laws.{IsAccepted};
ghost use Rattle.batch_runner.specs.Layout.{bases_at, code_of, next_place as place_after};
ghost use Rattle.batch_runner.specs.Working.Places.{place_of};
ghost use Rattle.batch_runner.specs.Working.Rooms.{HasRoom};

use crate::place::TaskPlace;
use cairo_model::Checked;
use goldi_field::Felt;
use std::marker::Model;

/// A task with the places where it and the next one begin, the bases of its segments, and the words of its program.
#[derive(Debug, Drop)]
pub(crate) struct PlacedTask<'a> {
    pub task: &'a Checked,
    pub at: TaskPlace,
    pub next: TaskPlace,
    pub bases: &'a [Felt],
    pub code: Vec<u64>,
}

impl<'a> Model for PlacedTask<'a> {
    ghost use Rattle.std.specs.Prelude.{map};
    ghost use Rattle.batch_runner.specs.Working.Places.{place_of};
    ghost use Rattle.batch_runner.specs.Working.Placing.{IsPlaced, PlacedRecord};

    ghost Value = { PlacedRecord };

    ghost view = { λ x. record { task = x.task.now; place = place_of x.at } };

    ghost invariant = { λ x. IsPlaced x.task.now (place_of x.at) (place_of x.next) (map (λ f. f.number) x.bases.now) x.code.items };
}

impl<'a> PlacedTask<'a> {
    pub fn task(&self) -> &Checked
        ensures value { result.now ≡ self.now.task }
        ensures accepted { IsAccepted self.now.task }
    {
        self.task
    }

    pub fn at(&self) -> TaskPlace
        ensures value { place_of result ≡ self.now.place }
        ensures room { HasRoom self.now.task self.now.place }
    {
        self.at
    }

    pub fn next(&self) -> TaskPlace
        ensures { place_of result ≡ place_after self.now.task self.now.place }
    {
        self.next
    }

    pub fn bases(&self) -> &[Felt]
        ensures value { numbers result.now ≡ bases_at self.now.task self.now.place }
        ensures fit { Fits (numbers result.now) self.now.task.pie.sizes }
    {
        self.bases
    }

    pub fn code(&self) -> &[u64]
        ensures value { result.now ≡ code_of self.now.task }
        ensures felts { All IsFelt result.now }
        ensures accepted { IsAccepted self.now.task }
    {
        self.code.as_slice()
    }
}
