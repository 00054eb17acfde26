use crate::kept::Kept;
use crate::view::View;
use atomic_table::Seat;
use std::marker::Model;

/// The right to take turns at one lock, under one number. It takes memory for its number alone.
pub struct Pass<V: Kept> {
    pub(crate) seat: Seat<Option<V>, View<V::Note>>,
    pub(crate) number: u32,
}

impl<V: Kept> Model for Pass<V> {
    ghost use Rattle.std.specs.Prelude.{◌≡◌, []};
    ghost use Rattle.turn_lock.specs.Journals.{entries_by};
    ghost use Rattle.turn_lock.specs.Passes.{Token};
    ghost use Rattle.turn_lock.specs.Views.{IsAtRest};

    ghost Value = { Token V.Note };

    ghost view = { λ p. record { lock = p.seat.table_id; number = p.number; width = p.seat.me.0.width; seen = p.seat.me.0.seen; mine = p.seat.me.0.mine } };

    ghost invariant = { λ p. IsAtRest p.seat.me.0 × (p.seat.me.1 ≡ []) × (p.seat.me.0.number ≡ p.number) × (entries_by p.number p.seat.me.0.seen ≡ p.seat.me.0.mine) };
}

impl<V: Kept> Pass<V> {
    ghost use Rattle.std.specs.Prelude.{◌≡◌, []};
    ghost use Rattle.turn_lock.specs.Journals.{entries_by};
    ghost use Rattle.turn_lock.specs.Working.Parts.{part_of};
    ghost use Rattle.turn_lock.specs.Views.{IsAtRest, own_part};

    pub fn number(&self) -> u32
        ensures number { result ≡ self.now.number }
        // Of what the pass has seen, its own entries are just those of its number.
        ensures mine { entries_by self.now.number self.now.seen ≡ self.now.mine }
    {
        self.number
    }

    pub(crate) fn into_seat(self) -> Seat<Option<V>, View<V::Note>>
        ensures own { result.table_id ≡ self.lock }
        ensures free { result.me.1 ≡ [] }
        ensures rests { IsAtRest result.me.0 }
        ensures part { own_part result.me.0 ≡ part_of self }
    {
        let Pass { seat, number: _ } = self;
        seat
    }
}

impl<V: Kept> Drop for Pass<V> {
    fn drop(self) {
        let Pass { seat: _, number: _ } = self;
    }
}
