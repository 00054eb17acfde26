// The rule of the table, and what each step tells.
ghost use Rattle.turn_lock.specs.Views.{newcomer};
ghost use Rattle.turn_lock.specs.Tables.{Standing, drew, looked, passed, learned};

use crate::kept::Kept;
use crate::view::View;
use atomic_table::{Join, Play, Split, TableRule};
use std::snapshot::Snapshot;

// What the rule is told when the lock is made: the number of passes, and the value.
#[derive(Drop)]
pub(crate) struct Opening<V> {
    pub passes: u32,
    pub value: Snapshot<V>,
}

pub(crate) struct Order;

impl<V: Kept> TableRule<Option<V>, View<V::Note>, Opening<V>> for Order {
    ghost holds = { λ opening. Standing V.journal V.turns V.width opening.passes };

    ghost first = { λ opening. newcomer 0 (V.width opening.value.value) 1 };
}

pub(crate) struct Draw;

impl<V: Kept> Play<Option<V>, View<V::Note>> for Draw {
    ghost then = { drew };
}

pub(crate) struct Look;

impl<V: Kept> Play<Option<V>, View<V::Note>> for Look {
    ghost then = { looked V.journal V.turns V.width };
}

pub(crate) struct Raise;

impl<V: Kept> Play<Option<V>, View<V::Note>> for Raise {
    ghost then = { passed V.journal V.turns V.width };
}

pub(crate) struct Deal;

impl<N> Split<View<N>> for Deal {
    ghost use Rattle.turn_lock.specs.Views.{dealt, next_pass};

    ghost left = { dealt };

    ghost right = { next_pass };
}

pub(crate) struct Gather;

impl<N> Join<View<N>> for Gather {
    ghost use Rattle.turn_lock.specs.Views.{gathered, spent};

    ghost both = { gathered };

    ghost spent = { spent };
}

pub(crate) struct Copy;

impl<N> Split<View<N>> for Copy {
    ghost use Rattle.turn_lock.specs.Views.{note_of};

    ghost left = { λ v. v };

    ghost right = { note_of };
}

pub(crate) struct Hear;

impl<N> Join<View<N>> for Hear {
    ghost use Rattle.turn_lock.specs.Views.{hearing, spent};

    ghost both = { hearing };

    ghost spent = { spent };
}

pub(crate) struct Settle;

impl<V: Kept> Play<Option<V>, View<V::Note>> for Settle {
    ghost then = { learned };
}
