ghost use Rattle.std.specs.Prelude.{◌≡◌, ℕ, ◌<◌, ◌≤◌, [], map, vec_len, All, IfOk};
ghost use Rattle.std.specs.List.{range_with_len};
ghost use Rattle.turn_lock.specs.Journals.{entries_by, IsPrefix, longer};
ghost use Rattle.turn_lock.specs.Views.{newcomer, all_parts};
ghost use Rattle.turn_lock.specs.declared.view.Stage.TheVariants.{Resting};
ghost use Rattle.turn_lock.specs.Passes.{fresh, IsNumberOf};
ghost use Rattle.turn_lock.specs.Working.Parts.{part_of};

use crate::bells::Bells;
use crate::kept::Kept;
use crate::pass::Pass;
use crate::plays::{Copy, Deal, Gather, Hear, Opening, Order, Settle};
use crate::view::View;
use atomic_table::{Seat, Table};
use std::alloc::{AllocError, Global};
use std::marker::Model;
use std::snapshot::Snapshot;

/// A value that one thread at a time changes, in the order of the tickets that they drew.
#[derive(Drop)]
pub struct TurnLock<V: Kept> {
    pub(crate) table: Table<Option<V>, View<V::Note>, Opening<V>, Order, Global>,
    pub(crate) bells: Bells,
}

impl<V: Kept> Model for TurnLock<V> {
    ghost use Rattle.std.specs.Prelude.{◌≡◌, ◌≤◌};
    ghost use Rattle.turn_lock.specs.Passes.{Name};

    ghost Value = { Name };

    ghost view = { λ l. record { lock = l.table.shared.table_id; passes = l.table.shared.key.passes } };

    ghost invariant = { λ l. (l.table.shared.table_id.words ≡ 2) × (l.table.shared.table_id.slots ≡ 1) × (1 ≤ l.table.shared.key.passes) };
}

impl<V: Kept + Drop> TurnLock<V> {
    /// A lock round the value, and its passes. At want of memory the value is dropped.
    pub fn new<R: Sync>(
        _rt: &R,
        alloc: Global,
        value: V,
        passes: u32,
    ) -> Result<(TurnLock<V>, Vec<Pass<V>>), AllocError>
        requires some { 1 ≤ passes }
        requires empty { V.journal value ≡ [] }
        ensures count { IfOk result (λ made. made.0.passes ≡ passes) }
        ensures passes { IfOk result (λ made. made.1.items ≡ map (fresh made.0.lock (V.width value)) (range_with_len 0 passes)) }
    {
        let turns = value.turns();
        let opening = Opening {
            passes,
            value: Snapshot::of(&value),
        };
        let mut slots = Vec::with_capacity(alloc, 1)?;
        slots.push(Some(value))?;
        let Ok((table, first)) = Table::new(alloc, &[turns, turns], slots, &opening) else {
            return Err(AllocError);
        };
        let lock = TurnLock {
            table,
            bells: Bells::new(),
        };
        let list = lock.deal(alloc, first, passes)?;
        Ok((lock, list))
    }
}

impl<V: Kept> TurnLock<V> {
    // Gives the numbers out, from the seat of number 0.
    fn deal(
        &self,
        alloc: Global,
        mut first: Seat<Option<V>, View<V::Note>>,
        passes: u32,
    ) -> Result<Vec<Pass<V>>, AllocError>
        requires own { first.table_id ≡ self.now.lock }
        requires all { passes ≡ self.now.passes }
        requires first { first.me ≡ (newcomer 0 first.me.0.width 1, []) }
        ensures { IfOk result (λ list. list.items ≡ map (fresh self.now.lock first.me.0.width) (range_with_len 0 passes)) }
    {
        let mut list = Vec::new(alloc);
        for number in 1..passes {
            let seat = self.table.shared.split_seat::<Deal>(&mut first);
            list.push(Pass { seat, number })?;
        }
        let zero = Pass {
            seat: first,
            number: 0,
        };
        list.insert(0, zero)?;
        Ok(list)
    }

    /// Lets a pass see what another has seen. Neither waits.
    pub fn meet(&self, pass: &mut Pass<V>, other: &mut Pass<V>)
        requires own { (pass.old.lock ≡ self.now.lock) × (other.old.lock ≡ self.now.lock) }
        ensures pass { pass.new ≡ record pass.old { seen = longer pass.old.seen other.old.seen } }
        ensures begins { IsPrefix pass.old.seen pass.new.seen × IsPrefix other.old.seen pass.new.seen }
        ensures other { other.new ≡ other.old }
    {
        let note = self.table.shared.split_seat::<Copy>(&mut other.seat);
        self.table.shared.join_seat::<Hear>(&mut pass.seat, note);
        self.table.shared.load::<Settle>(&mut pass.seat, 0);
    }

    /// Gives the value out, where each pass is in the list. It takes no memory.
    pub fn close<R: Sync>(self, _rt: &R, passes: Vec<Pass<V>>) -> V
        requires own { All (λ p. p.lock ≡ self.lock) passes.items }
        requires each { (number : ℕ) → number < self.passes → IsNumberOf passes.items number }
        ensures width { All (λ p. V.width result ≡ p.width) passes.items }
        ensures seen { All (λ p. IsPrefix p.seen (V.journal result)) passes.items }
        ensures mine { All (λ p. entries_by p.number (V.journal result) ≡ p.mine) passes.items }
        ensures others { All (λ e. IsNumberOf passes.items e.0) (V.journal result) }
    {
        let all = self.gather(passes);
        let TurnLock { table, bells: _ } = self;
        let mut closed = table.close_with(all);
        let slot = closed.take(0);
        closed.free();
        let Some(value) = slot else { unreachable!() };
        value
    }

    // Joins all passes into one, whose seat is given.
    fn gather(&self, mut passes: Vec<Pass<V>>) -> Seat<Option<V>, View<V::Note>>
        requires own { All (λ p. p.lock ≡ self.now.lock) passes.items }
        requires some { 0 < vec_len passes }
        ensures own { result.table_id ≡ self.now.lock }
        ensures free { result.me.1 ≡ [] }
        ensures rests { result.me.0.stage ≡ Resting }
        ensures parts { all_parts result.me.0 ≡ map part_of passes.items }
    {
        let Some(last) = passes.pop() else {
            unreachable!()
        };
        let mut all = last.into_seat();
        while let Some(pass) = passes.pop() {
            self.table
                .shared
                .join_seat::<Gather>(&mut all, pass.into_seat());
        }
        all
    }
}
