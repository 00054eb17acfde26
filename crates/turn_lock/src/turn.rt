ghost use Rattle.std.specs.Prelude.{◌≡◌, ℕ, Some, None, List, [], ◌∷◌, ◌++◌};
ghost use Rattle.std.specs.Bool.{OnTrue, OnFalse};
ghost use Rattle.turn_lock.specs.Passes.{Turned};
ghost use Rattle.turn_lock.specs.Views.{IsAtRest, raised};
ghost use Rattle.turn_lock.specs.Tables.{Took};
ghost use Rattle.turn_lock.specs.Working.Turns.{Begun, Ending};
ghost use Rattle.turn_lock.specs.declared.view.Stage.TheVariants.{Waiting};

use crate::kept::{Change, Kept};
use crate::lock::TurnLock;
use crate::pass::Pass;
use crate::plays::{Draw, Look, Raise};
use crate::view::View;
use atomic_table::Seat;
use std::hint::spin_loop;
use std::sync::Wait;
use std::sync::atomic::Ordering;
use std::thread::yield_now;

/// How often a waiting pass looks at the word that is served before it sleeps.
const LOOKS: u32 = 1024;

/// How often a pass without a ticket looks whether nobody stands in line before it sleeps.
const GLANCES: u32 = 256;

/// How often it finds somebody in line before it stands in line too.
const PATIENCE: u32 = 16;

impl<V: Kept> TurnLock<V> {
    /// Draws a ticket, waits until it is served, makes the change, and serves the next ticket. While others stand in line it waits a
    /// while before it draws one.
    pub fn turn<C: Change<V>, R: Wait + Sync>(
        &self,
        rt: &R,
        pass: &mut Pass<V>,
        change: C,
    ) -> C::Answer
        requires own { pass.old.lock ≡ self.now.lock }
        requires fits { C.fits change pass.old.width }
        ensures { Turned V.journal V.width C.does change pass.old pass.new result }
    {
        self.approach(rt);
        let mut value = self.begin(rt, &mut pass.seat);
        let answer = change.apply(pass.number, &mut value);
        self.put_back(&mut pass.seat, value);
        self.serve_next(&mut pass.seat);
        answer
    }

    // Waits until nobody stands in line, so that a pass seldom has a ticket while its thread isn't running. Who has slept often enough
    // stands in line all the same.
    fn approach<R: Wait>(&self, rt: &R) {
        for _ in 0..PATIENCE {
            if self.is_free() {
                return;
            }
            self.sleep_behind(rt);
        }
    }

    // Looks a few times whether each ticket that was drawn has been served.
    fn is_free(&self) -> bool {
        for _ in 0..GLANCES {
            if self.table.shared.peek(0) == self.table.shared.peek(1) {
                return true;
            }
            spin_loop();
        }
        false
    }

    // Sleeps until the tickets that were drawn are served, unless they are, or one more was drawn meanwhile: then the bell of the next
    // ticket may have been rung before it was heard.
    fn sleep_behind<R: Wait>(&self, rt: &R) {
        let next = self.table.shared.peek(0);
        let bell = self.bells.of(next);
        let heard = bell.load(Ordering::SeqCst);
        if self.table.shared.peek(1) != next && self.table.shared.peek(0) == next {
            self.bells.sleep(rt, bell, heard);
        }
    }

    // Draws a ticket, waits until it is served, and takes the value out.
    fn begin<R: Wait>(&self, rt: &R, seat: &mut Seat<Option<V>, View<V::Note>>) -> V
        requires own { seat.old.table_id ≡ self.now.lock }
        requires rests { IsAtRest seat.old.me.0 }
        requires free { seat.old.me.1 ≡ [] }
        ensures own { seat.new.table_id ≡ seat.old.table_id }
        ensures begun { Begun V.journal V.turns V.width seat.old.me.0 result seat.new.me }
    {
        let ticket = self.table.shared.fetch_add::<Draw>(seat, 0, 1);
        self.wait(rt, seat, ticket);
        self.take_out(rt, seat, ticket)
    }

    // Serves the next ticket, and wakes who waits for it. The slot is at home again.
    fn serve_next(&self, seat: &mut Seat<Option<V>, View<V::Note>>)
        requires own { seat.old.table_id ≡ self.now.lock }
        requires turn { (value : V) × Ending V.journal V.turns V.width seat.old.me value }
        ensures own { seat.new.table_id ≡ seat.old.table_id }
        ensures ended { (value : V) (added : List (ℕ × V.Note)) → seat.old.me.1 ≡ (0, Some value) ∷ [] → V.journal value ≡ seat.old.me.0.seen ++ added → seat.new.me ≡ (raised seat.old.me.0 (V.journal value) added, []) }
    {
        self.bells
            .call_after(self.table.shared.fetch_add::<Raise>(seat, 1, 1));
    }

    // Waits until the ticket is served. The slot is then the seat's.
    fn wait<R: Wait>(&self, rt: &R, seat: &mut Seat<Option<V>, View<V::Note>>, ticket: u64)
        requires own { seat.old.table_id ≡ self.now.lock }
        requires waits { seat.old.me.0.stage ≡ Waiting ticket }
        requires free { seat.old.me.1 ≡ [] }
        ensures own { seat.new.table_id ≡ seat.old.table_id }
        ensures took { Took V.journal V.turns V.width seat.old.me.0 ticket [] seat.new.me }
    {
        for _ in rt.forever() {
            if self.look(seat, ticket) {
                return;
            }
            self.sleep(rt, ticket);
        }
        unreachable!()
    }

    // Sleeps until the ticket is called, unless it is served.
    fn sleep<R: Wait>(&self, rt: &R, ticket: u64) {
        let bell = self.bells.of(ticket);
        let heard = bell.load(Ordering::SeqCst);
        if self.table.shared.peek(1) != ticket {
            self.bells.sleep(rt, bell, heard);
        }
    }

    // Looks a few times whether the ticket is served.
    fn look(&self, seat: &mut Seat<Option<V>, View<V::Note>>, ticket: u64) -> bool
        requires own { seat.old.table_id ≡ self.now.lock }
        requires waits { seat.old.me.0.stage ≡ Waiting ticket }
        requires free { seat.old.me.1 ≡ [] }
        ensures own { seat.new.table_id ≡ seat.old.table_id }
        ensures took { OnTrue result (Took V.journal V.turns V.width seat.old.me.0 ticket [] seat.new.me) }
        ensures same { OnFalse result (seat.new.me ≡ seat.old.me) }
    {
        for _ in 0..LOOKS {
            if self.table.shared.load::<Look>(seat, 1) == ticket {
                return true;
            }
            spin_loop();
        }
        false
    }

    // Takes the value out of the slot. A value of another turn, or none, would be put back, and the slot tried again.
    fn take_out<R: Wait>(&self, rt: &R, seat: &mut Seat<Option<V>, View<V::Note>>, ticket: u64) -> V
        requires own { seat.old.table_id ≡ self.now.lock }
        requires due { (value : V) × (seat.old.me.1 ≡ (0, Some value) ∷ []) × (V.turns value ≡ ticket) }
        ensures own { seat.new.table_id ≡ seat.old.table_id }
        ensures view { seat.new.me.0 ≡ seat.old.me.0 }
        ensures taken { seat.old.me.1 ≡ (0, Some result) ∷ [] }
        ensures empty { seat.new.me.1 ≡ (0, None) ∷ [] }
    {
        for _ in rt.forever() {
            if let Some(value) = self.table.shared.exchange(seat, 0, None) {
                if value.turns() == ticket {
                    return value;
                }
                self.put_back(seat, value);
            }
            yield_now();
        }
        unreachable!()
    }

    fn put_back(&self, seat: &mut Seat<Option<V>, View<V::Note>>, value: V)
        requires own { seat.old.table_id ≡ self.now.lock }
        requires empty { seat.old.me.1 ≡ (0, None) ∷ [] }
        ensures own { seat.new.table_id ≡ seat.old.table_id }
        ensures view { seat.new.me.0 ≡ seat.old.me.0 }
        ensures put { seat.new.me.1 ≡ (0, Some value) ∷ [] }
    {
        let before = self.table.shared.exchange(seat, 0, Some(value));
        let None = before else { unreachable!() };
    }
}
