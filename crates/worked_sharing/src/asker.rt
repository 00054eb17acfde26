// A gate that asks the desk, by a pass of its own, whether a fact stands.
ghost use Rattle.std.specs.Prelude.{◌≡◌, ◌<◌};

use batch_workers::{Gate, Point};
use cairo_model::Fact;
use desk_core::Reply;
use session_desk::{Held, SharedDesk};
use std::alloc::Global;
use std::sync::{Mutex, Wait};
use turn_lock::Pass;

/// What is asked, by which pass, and each point with the reply there.
#[derive(Drop)]
pub(crate) struct Asker<'a> {
    pub alloc: Global,
    pub desk: &'a SharedDesk,
    pub pass: Pass<Held>,
    pub fact: &'a Fact,
    pub told: Vec<(Point, Reply)>,
    ghost own: { pass.lock ≡ desk.now.lock },
    ghost client: { 0 < pass.width },
}

impl<'a> Asker<'a> {
    fn ask<R: Wait + Sync>(&mut self, rt: &R, point: Point) {
        let reply = self.desk.ask(rt, self.alloc, &mut self.pass, 0, self.fact);
        if let Ok(reply) = reply {
            let _ = self.told.push((point, reply));
        }
    }
}

#[derive(Drop)]
pub(crate) struct AskingGate<'a> {
    asker: Mutex<Asker<'a>>,
}

impl<'a> AskingGate<'a> {
    pub(crate) fn new(asker: Asker<'a>) -> AskingGate<'a> {
        AskingGate {
            asker: Mutex::new(asker),
        }
    }

    /// The points in their order, each with the reply there.
    pub(crate) fn into_told(self) -> Vec<(Point, Reply)> {
        let AskingGate { asker } = self;
        asker.into_inner().told
    }
}

impl<'a> Gate for AskingGate<'a> {
    fn reach<R: Wait + Sync>(&self, rt: &R, point: Point) {
        self.asker.lock(rt).ask(rt, point);
    }
}
