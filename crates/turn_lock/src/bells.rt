use std::sync::Wait;
use std::sync::atomic::{AtomicU64, Ordering};

/// The half of a word by which a sleeping thread is told that the word has changed.
const LOW_HALF: u64 = 0xffff_ffff;

/// What waiting passes sleep on: a ticket has the bell of its number modulo 4, so that few are woken for a ticket that isn't theirs. No
/// clause speaks of it.
#[derive(Drop)]
pub(crate) struct Bells {
    first: AtomicU64,
    second: AtomicU64,
    third: AtomicU64,
    fourth: AtomicU64,
    /// How many passes sleep.
    sleepers: AtomicU64,
}

impl Bells {
    pub(crate) fn new() -> Bells {
        Bells {
            first: AtomicU64::new(0),
            second: AtomicU64::new(0),
            third: AtomicU64::new(0),
            fourth: AtomicU64::new(0),
            sleepers: AtomicU64::new(0),
        }
    }

    /// The bell of a ticket.
    pub(crate) fn of(&self, ticket: u64) -> &AtomicU64 {
        match ticket % 4 {
            0 => &self.first,
            1 => &self.second,
            2 => &self.third,
            _ => &self.fourth,
        }
    }

    /// Sleeps until the bell, which was heard so often, is rung, unless it was rung since. Who rings sees that there is a sleeper, or
    /// the sleeper sees that its bell was rung.
    pub(crate) fn sleep<R: Wait>(&self, rt: &R, bell: &AtomicU64, heard: u64) {
        self.sleepers.fetch_add(1, Ordering::SeqCst);
        bell.park(rt, (heard & LOW_HALF) as u32);
        self.sleepers.fetch_sub(1, Ordering::SeqCst);
    }

    /// Rings the bell of the ticket after this one, and wakes those who sleep on it, if anybody sleeps.
    pub(crate) fn call_after(&self, ticket: u64) {
        let bell = self.of(ticket.wrapping_add(1));
        bell.fetch_add(1, Ordering::SeqCst);
        if self.sleepers.load(Ordering::SeqCst) != 0 {
            bell.wake_all();
        }
    }
}
