ghost use Rattle.std.specs.Prelude.{◌≡◌, IfOk, OnErr};
ghost use Rattle.desk_core.specs.GoodDesks.{IsGoodDesk};
ghost use Rattle.desk_core.specs.Journals.{no_pie};
ghost use Rattle.desk_core.specs.Turns.{IsTurn, turned};
ghost use Rattle.desk_core.specs.declared.event.Event.TheVariants.{Close};

use crate::desk::Desk;
use crate::event::Event;
use crate::reply::Reply;
use crate::submit::write;
use std::alloc::AllocError;

impl Desk {
    /// Closes the desk: from then on no accepted offer is admitted. After want of memory only the count of turns differs.
    pub fn close(&mut self, pass: u32) -> Result<Reply, AllocError>
        ensures ok { IfOk result (IsTurn self.old self.new pass Close no_pie) }
        ensures err { OnErr result (self.new ≡ turned self.old) }
        ensures good { IsGoodDesk self.old × IsGoodDesk self.new }
    {
        self.turns = self.turns.wrapping_add(1);
        self.entries.reserve(1)?;
        let reply = Reply::Closed;
        self.closed = true;
        write(&mut self.entries, pass, Event::Close, &reply);
        Ok(reply)
    }
}
