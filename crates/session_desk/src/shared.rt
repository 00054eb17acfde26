ghost use Rattle.std.specs.Prelude.{◌≡◌, ◌<◌, ◌≤◌, ℕ, All, IfOk, map};
ghost use Rattle.std.specs.List.{range_with_len};
ghost use Rattle.desk_core.specs.GoodDesks.{IsGoodDesk};
ghost use Rattle.desk_core.specs.Journals.{no_pie};
ghost use Rattle.desk_core.specs.Limits.{most_clients};
ghost use Rattle.desk_core.specs.Turns.{offer_note, pie_of};
ghost use Rattle.desk_core.specs.declared.event.Event.TheVariants.{Ask, Close, GiveBack, Seal, Status, Submit};
ghost use Rattle.desk_core.specs.declared.reply.Reply.TheVariants.{Yes};
ghost use Rattle.session_desk.specs.PassTurns.{EventTurn, LeavesEntry, LeavesRegistration, LeavesTaking, RegisterTurn, TakeTurn};
ghost use Rattle.session_desk.specs.SeenDesks.{HasSeenFact};
ghost use Rattle.session_desk.specs.Sessions.{SeenIsIsolated, passed_journal};
ghost use Rattle.turn_lock.specs.Journals.{entries_by, IsPrefix, longer};
ghost use Rattle.turn_lock.specs.Passes.{fresh, IsNumberOf};

use crate::asking::Asking;
use crate::closing::Closing;
use crate::held::Held;
use crate::looking::Looking;
use crate::registering::Registering;
use crate::returning::Returning;
use crate::sealing::Sealing;
use crate::submitting::Submitting;
use crate::taking::Taking;
use boot_program::{Certified, Parcel};
use cairo_model::Fact;
use desk_core::{Desk, Offer, RegisterEnd, Reply};
use std::alloc::{AllocError, Global};
use std::marker::Model;
use std::sync::Wait;
use turn_lock::{Pass, TurnLock};

/// A desk that many threads use, each by a pass of its own (docs/SERVICE.md). Each call that is an event waits for its turn, and its
/// reply is the desk's at that turn. After want of memory the pass has no entry more.
#[derive(Drop)]
pub struct SharedDesk {
    lock: TurnLock<Held>,
}

impl Model for SharedDesk {
    ghost use Rattle.turn_lock.specs.Passes.{Name};

    ghost Value = { Name };

    ghost view = { λ d. d.lock };
}

impl SharedDesk {
    /// An empty desk of so many clients, with its passes, numbered from 0.
    pub fn new<R: Sync>(
        rt: &R,
        alloc: Global,
        clients: u32,
        passes: u32,
    ) -> Result<(SharedDesk, Vec<Pass<Held>>), AllocError>
        requires some_clients { 1 ≤ clients }
        requires few_clients { clients ≤ most_clients }
        requires some { 1 ≤ passes }
        ensures count { IfOk result (λ made. made.0.passes ≡ passes) }
        ensures passes { IfOk result (λ made. made.1.items ≡ map (fresh made.0.lock clients) (range_with_len 0 passes)) }
    {
        let held = Held {
            desk: Desk::new(alloc, clients)?,
        };
        let (lock, list) = TurnLock::new(rt, alloc, held, passes)?;
        Ok((SharedDesk { lock }, list))
    }

    /// Hands an offer of a client in. The offer was made before, so nobody waits while a PIE is looked at.
    pub fn submit<R: Wait + Sync>(
        &self,
        rt: &R,
        alloc: Global,
        pass: &mut Pass<Held>,
        client: u32,
        offer: Offer,
    ) -> Result<Reply, AllocError>
        requires own { pass.old.lock ≡ self.now.lock }
        requires client { client < pass.old.width }
        ensures turn { EventTurn (Submit client (offer_note offer)) (pie_of offer) pass.old pass.new result }
        ensures mine { LeavesEntry (Submit client (offer_note offer)) (pie_of offer) pass.old pass.new result }
        ensures isolated { SeenIsIsolated pass.new.seen }
    {
        let change = Submitting {
            alloc,
            client,
            offer,
        };
        self.lock.turn(rt, pass, change)
    }

    /// Asks whether a fact stands.
    pub fn ask<R: Wait + Sync>(
        &self,
        rt: &R,
        alloc: Global,
        pass: &mut Pass<Held>,
        client: u32,
        fact: &Fact,
    ) -> Result<Reply, AllocError>
        requires own { pass.old.lock ≡ self.now.lock }
        requires client { client < pass.old.width }
        ensures turn { EventTurn (Ask client fact.now) no_pie pass.old pass.new result }
        ensures mine { LeavesEntry (Ask client fact.now) no_pie pass.old pass.new result }
        // What the pass has seen registered, the desk at this turn has registered too.
        ensures yes { IfOk result (λ r. HasSeenFact fact.now pass.old → r ≡ Yes) }
    {
        let change = Asking {
            alloc,
            client,
            fact,
        };
        self.lock.turn(rt, pass, change)
    }

    /// Asks where the client's job of this number stands.
    pub fn status<R: Wait + Sync>(
        &self,
        rt: &R,
        pass: &mut Pass<Held>,
        client: u32,
        number: u32,
    ) -> Result<Reply, AllocError>
        requires own { pass.old.lock ≡ self.now.lock }
        requires client { client < pass.old.width }
        ensures turn { EventTurn (Status client number) no_pie pass.old pass.new result }
        ensures mine { LeavesEntry (Status client number) no_pie pass.old pass.new result }
    {
        self.lock.turn(rt, pass, Looking { client, number })
    }

    /// Puts the next batch together.
    pub fn seal<R: Wait + Sync>(
        &self,
        rt: &R,
        alloc: Global,
        pass: &mut Pass<Held>,
    ) -> Result<Reply, AllocError>
        requires own { pass.old.lock ≡ self.now.lock }
        ensures turn { EventTurn Seal no_pie pass.old pass.new result }
        ensures mine { LeavesEntry Seal no_pie pass.old pass.new result }
    {
        self.lock.turn(rt, pass, Sealing { alloc })
    }

    /// Takes the next sealed batch, and hands out its tasks in memory of their own.
    pub fn take<R: Wait + Sync>(
        &self,
        rt: &R,
        alloc: Global,
        pass: &mut Pass<Held>,
    ) -> Result<(Reply, Option<Parcel>), AllocError>
        requires own { pass.old.lock ≡ self.now.lock }
        ensures turn { TakeTurn pass.old pass.new result }
        ensures mine { LeavesTaking pass.old pass.new result }
    {
        self.lock.turn(rt, pass, Taking { alloc })
    }

    /// Registers a batch that this pass has taken. What isn't registered comes back.
    pub fn register<R: Wait + Sync>(
        &self,
        rt: &R,
        alloc: Global,
        pass: &mut Pass<Held>,
        batch: u32,
        certified: Certified,
    ) -> RegisterEnd
        requires own { pass.old.lock ≡ self.now.lock }
        ensures turn { RegisterTurn batch certified pass.old pass.new result }
        ensures mine { LeavesRegistration batch pass.old pass.new result }
    {
        let change = Registering {
            alloc,
            batch,
            certified,
        };
        self.lock.turn(rt, pass, change)
    }

    /// Gives a batch back that this pass has taken.
    pub fn give_back<R: Wait + Sync>(
        &self,
        rt: &R,
        pass: &mut Pass<Held>,
        batch: u32,
    ) -> Result<Reply, AllocError>
        requires own { pass.old.lock ≡ self.now.lock }
        ensures turn { EventTurn (GiveBack batch) no_pie pass.old pass.new result }
        ensures mine { LeavesEntry (GiveBack batch) no_pie pass.old pass.new result }
    {
        self.lock.turn(rt, pass, Returning { batch })
    }

    /// Closes the desk: from then on no accepted offer is admitted.
    pub fn close<R: Wait + Sync>(&self, rt: &R, pass: &mut Pass<Held>) -> Result<Reply, AllocError>
        requires own { pass.old.lock ≡ self.now.lock }
        ensures turn { EventTurn Close no_pie pass.old pass.new result }
        ensures mine { LeavesEntry Close no_pie pass.old pass.new result }
    {
        self.lock.turn(rt, pass, Closing)
    }

    /// Lets a pass see what another has seen. It is no event, and neither waits.
    pub fn meet(&self, pass: &mut Pass<Held>, other: &mut Pass<Held>)
        requires own { (pass.old.lock ≡ self.now.lock) × (other.old.lock ≡ self.now.lock) }
        ensures pass { pass.new ≡ record pass.old { seen = longer pass.old.seen other.old.seen } }
        ensures begins { IsPrefix pass.old.seen pass.new.seen × IsPrefix other.old.seen pass.new.seen }
        ensures other { other.new ≡ other.old }
    {
        self.lock.meet(pass, other);
    }

    /// Gives the desk out, where each pass is in the list. It takes no memory.
    pub fn finish<R: Sync>(self, rt: &R, passes: Vec<Pass<Held>>) -> Desk
        requires own { All (λ p. p.lock ≡ self.lock) passes.items }
        requires each { (number : ℕ) → number < self.passes → IsNumberOf passes.items number }
        ensures good { IsGoodDesk result }
        ensures width { All (λ p. result.clients ≡ p.width) passes.items }
        ensures seen { All (λ p. IsPrefix p.seen (passed_journal result)) passes.items }
        ensures mine { All (λ p. entries_by p.number (passed_journal result) ≡ p.mine) passes.items }
        ensures others { All (λ e. IsNumberOf passes.items e.0) (passed_journal result) }
    {
        let SharedDesk { lock } = self;
        let Held { desk } = lock.close(rt, passes);
        // The number of clients tells that the desk is a good one.
        let _ = desk.clients();
        desk
    }
}
