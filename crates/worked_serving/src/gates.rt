//! Threads that wait for one another at a gate. Each look is bounded, so a test ends whatever the threads do.

use crate::asking::served;
use batch_workers::{Gate, Point};
use std::alloc::{AllocError, Global};
use std::hint::spin_loop;
use std::sync::Wait;
use std::sync::atomic::{AtomicBool, Ordering};
use std::test::Fail;
use worked_vectors::files::EMPTY;

// A thread that waits at a gate looks so often at most.
const MOST_LOOKS: u32 = 100_000_000;

// Whether the flag is set at one of the looks.
fn is_set_in_time(flag: &AtomicBool) -> bool {
    for _ in 0..MOST_LOOKS {
        if flag.load(Ordering::SeqCst) {
            return true;
        }
        spin_loop();
    }
    false
}

// Holds who goes on to register batch 0 until somebody goes on to make batch 2.
#[derive(Drop)]
struct HoldsFirstBatch {
    third_taken: AtomicBool,
    first_held: AtomicBool,
    too_late: AtomicBool,
}

impl Gate for HoldsFirstBatch {
    fn reach<R: Wait + Sync>(&self, _rt: &R, point: Point) {
        if point == Point::BeforeMake(2) {
            self.third_taken.store(true, Ordering::SeqCst);
        }
        if point == Point::BeforeRegister(0) {
            self.first_held.store(true, Ordering::SeqCst);
            if !is_set_in_time(&self.third_taken) {
                self.too_late.store(true, Ordering::SeqCst);
            }
        }
    }
}

// So many lines that hand in the program that writes nothing.
fn empty_runs(alloc: Global, client: u32, times: u32) -> Result<Vec<u8>, AllocError> {
    let mut script = Vec::new(alloc);
    for _ in 0..times {
        script.extend_from_slice(format!(in alloc; "submit {client} {EMPTY}\n")?.as_bytes())?;
    }
    Ok(script)
}

#[test]
fn a_worker_goes_on_while_another_is_held(rt: HostRuntime) -> Result<(), Fail> {
    let gate = HoldsFirstBatch {
        third_taken: AtomicBool::new(false),
        first_held: AtomicBool::new(false),
        too_late: AtomicBool::new(false),
    };
    let script = empty_runs(rt.alloc(), 0, 33)?;
    let words = ["serve", "--clients", "1", "--workers", "2"];
    let ended = served(&rt, &words, script, &gate)?;
    assert_eq!(rt; ended.status, 0);
    assert!(rt; gate.first_held.load(Ordering::SeqCst));
    assert!(rt; !gate.too_late.load(Ordering::SeqCst));
    Ok(())
}

// Holds the client that goes on to submit first until the other one does.
#[derive(Drop)]
struct HoldsFirstClient {
    reached: [AtomicBool; 2],
    too_late: AtomicBool,
}

impl Gate for HoldsFirstClient {
    fn reach<R: Wait + Sync>(&self, _rt: &R, point: Point) {
        let (own, other) = match point {
            Point::BeforeSubmit(0) => (&self.reached[0], &self.reached[1]),
            Point::BeforeSubmit(1) => (&self.reached[1], &self.reached[0]),
            _ => return,
        };
        own.store(true, Ordering::SeqCst);
        if !is_set_in_time(other) {
            self.too_late.store(true, Ordering::SeqCst);
        }
    }
}

#[test]
fn two_clients_submit_at_one_time(rt: HostRuntime) -> Result<(), Fail> {
    let gate = HoldsFirstClient {
        reached: [AtomicBool::new(false), AtomicBool::new(false)],
        too_late: AtomicBool::new(false),
    };
    let mut script = empty_runs(rt.alloc(), 0, 1)?;
    let more = empty_runs(rt.alloc(), 1, 1)?;
    script.extend_from_slice(more.as_slice())?;
    let words = ["serve", "--clients", "2", "--workers", "1"];
    let ended = served(&rt, &words, script, &gate)?;
    assert_eq!(rt; ended.status, 0);
    assert!(rt; !gate.too_late.load(Ordering::SeqCst));
    Ok(())
}
