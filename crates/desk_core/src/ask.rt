ghost use Rattle.std.specs.Prelude.{◌≡◌, ◌<◌, IfOk, OnErr};
ghost use Rattle.std.specs.List.{list_any};
ghost use Rattle.cairo_model.specs.Pie.FactOrder.{same_fact};
ghost use Rattle.desk_core.specs.GoodDesks.{IsGoodDesk};
ghost use Rattle.desk_core.specs.Journals.{no_pie};
ghost use Rattle.desk_core.specs.Turns.{IsTurn, turned};
ghost use Rattle.desk_core.specs.Working.Steps.{yes_or_no as reply_of};
ghost use Rattle.desk_core.specs.declared.event.Event.TheVariants.{Ask};

use crate::desk::Desk;
use crate::entry::ENTRY_AND_CLOSE;
use crate::event::Event;
use crate::reply::Reply;
use crate::submit::write;
use cairo_model::Fact;
use fact_registry::Registry;
use std::alloc::{AllocError, Global};

impl Desk {
    /// Tells whether a fact stands, by the registry alone. After want of memory only the count of turns differs.
    pub fn ask(
        &mut self,
        alloc: Global,
        pass: u32,
        client: u32,
        fact: &Fact,
    ) -> Result<Reply, AllocError>
        requires { client < self.old.clients }
        ensures ok { IfOk result (IsTurn self.old self.new pass (Ask client fact.now) no_pie) }
        ensures err { OnErr result (self.new ≡ turned self.old) }
        ensures good { IsGoodDesk self.old × IsGoodDesk self.new }
    {
        self.turns = self.turns.wrapping_add(1);
        let copy = fact.try_copy(alloc)?;
        self.entries.reserve(ENTRY_AND_CLOSE)?;
        let held = is_held(&self.registry, fact);
        let reply = yes_or_no(held);
        write(&mut self.entries, pass, Event::Ask(client, copy), &reply);
        Ok(reply)
    }
}

fn is_held(registry: &Registry, fact: &Fact) -> bool
    ensures { result ≡ list_any (same_fact fact.now) registry.now }
{
    registry.holds(fact)
}

fn yes_or_no(held: bool) -> Reply
    ensures { result ≡ reply_of held }
{
    if held { Reply::Yes } else { Reply::No }
}
