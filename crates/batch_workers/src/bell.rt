use std::sync::{Condvar, Mutex, Wait};

/// Lets workers that found nothing to do sleep until somebody rings. A ring wakes one of them, and who ends rings for the next. Its
/// count of rings wraps at 2^64 and serves waiting alone: no contract speaks of it, and nothing is promised of who is woken, or when.
#[derive(Drop)]
pub struct Bell {
    rings: Mutex<u64>,
    rung: Condvar,
}

impl Bell {
    /// A bell that hasn't rung, on which nobody waits.
    pub fn new() -> Bell {
        Bell {
            rings: Mutex::new(0),
            rung: Condvar::new(),
        }
    }

    /// How often it was rung. Who counts before looking for work, and listens with that count, misses no ring in between.
    pub fn count<R: Wait>(&self, rt: &R) -> u64 {
        *self.rings.lock(rt)
    }

    /// Wakes one of those who listen, if any does. Who comes to listen with an older count than now doesn't sleep.
    pub fn ring<R: Wait>(&self, rt: &R) {
        let mut rings = self.rings.lock(rt);
        *rings = rings.wrapping_add(1);
        self.rung.notify_one();
    }

    /// Sleeps while the count is the one that was heard, and answers the count then.
    pub fn listen<R: Wait>(&self, rt: &R, heard: u64) -> u64 {
        let rings = self
            .rung
            .wait_while(rt, self.rings.lock(rt), |rings| *rings == heard);
        *rings
    }
}
