ghost use Rattle.std.specs.Prelude.{◌≡◌, ◌↔◌, ◌+◌, ◌-◌, ◌≤◌, ◌<◌, min, [], IfOk, IsErr, IsTrue, OnErr, Some, drop, length, take, vec_capacity, vec_len, ◌++◌};
ghost use Rattle.std.specs.Io.{ReadsAtMost, WritesAtMost};
ghost use Rattle.std.specs.Io.KnownBytes.{ReadConsumes, WriteAppends};
ghost use Rattle.shared_prover_cli.specs.Faults.{HasCause, counted};
ghost use Rattle.shared_prover_cli.specs.MemoryStreams.{FailsToTake, IsNextListed, MemInput, MemOutput};

use crate::stream::{Failed, Sink, Source};
use std::alloc::{AllocError, Global};
use std::marker::Model;

/// Bytes in memory, which come some at a time, with failures where they are wanted.
#[derive(Drop)]
pub struct MemSource {
    bytes: Vec<u8>,
    place: usize,
    most: usize,
    failing: Vec<u64>,
    calls: u64,
    faults: u64,
}

impl Model for MemSource {
    ghost Value = { MemInput };

    ghost view = { λ s. record {
      left = drop s.place s.bytes.items;
      most = s.most;
      failing = s.failing.items;
      calls = s.calls;
      faults = s.faults;
    } };

    ghost invariant = { λ s. (s.place ≤ vec_len s.bytes) × (1 ≤ s.most) };
}

impl MemSource {
    /// A source that gives at most `most` bytes a call, and fails at the calls whose numbers, from 1
    /// on, stand in `failing`.
    pub fn new(bytes: Vec<u8>, most: usize, failing: Vec<u64>) -> MemSource
        requires { 1 ≤ most }
        ensures { result ≡ record {
          left = bytes.items;
          most = most;
          failing = failing.items;
          calls = 0;
          faults = 0;
        } }
    {
        MemSource {
            bytes,
            place: 0,
            most,
            failing,
            calls: 0,
            faults: 0,
        }
    }
}

impl Source for MemSource {
    ghost left = { λ s. Some s.left };

    ghost faults = { λ s. s.faults };

    fn read(&mut self, buf: &mut [u8]) -> Result<usize, Failed>
        ensures fails { IsErr result ↔ IsNextListed self.old.failing self.old.calls }
        ensures count { IfOk result (λ n.
            n ≡ min (length buf.new) (min self.old.most (length self.old.left))) }
        ensures moved { IfOk result (λ n. self.new ≡ record self.old {
          left = drop n self.old.left;
          calls = counted self.old.calls;
        }) }
        ensures kept { OnErr result (self.new ≡ record self.old {
          calls = counted self.old.calls;
          faults = counted self.old.faults;
        }) }
        ensures bound { ReadsAtMost result buf.new }
        ensures bytes { ReadConsumes (Some self.old.left) (Some self.new.left) result buf.new }
        ensures cause { HasCause self.old.faults self.new.faults result }
    {
        if is_listed(&mut self.calls, self.failing.as_slice()) {
            self.faults = self.faults.saturating_add(1);
            return Err(Failed);
        }
        let rest = self.bytes.len() - self.place;
        let count = buf.len().min(self.most.min(rest));
        let end = self.place + count;
        buf[..count].copy_from_slice(&self.bytes[self.place..end]);
        self.place = end;
        Ok(count)
    }
}

/// Memory with room for so many bytes, which takes some at a time, with failures where they are
/// wanted.
#[derive(Drop)]
pub struct MemSink {
    bytes: Vec<u8>,
    room: usize,
    most: usize,
    failing: Vec<u64>,
    calls: u64,
    faults: u64,
}

impl Model for MemSink {
    ghost Value = { MemOutput };

    ghost view = { λ s. record {
      held = s.bytes.items;
      room = s.room;
      most = s.most;
      failing = s.failing.items;
      calls = s.calls;
      faults = s.faults;
    } };

    ghost invariant = { λ s.
        (vec_len s.bytes ≤ s.room) × (s.room ≤ vec_capacity s.bytes) × (1 ≤ s.most) };
}

impl MemSink {
    /// A sink with room for `room` bytes, reserved here. It takes at most `most` bytes a call, and
    /// fails at the calls whose numbers, from 1 on, stand in `failing`.
    pub fn new(
        alloc: Global,
        room: usize,
        most: usize,
        failing: Vec<u64>,
    ) -> Result<MemSink, AllocError>
        requires { 1 ≤ most }
        ensures { IfOk result (λ s. s ≡ record {
          held = [];
          room = room;
          most = most;
          failing = failing.items;
          calls = 0;
          faults = 0;
        }) }
    {
        Ok(MemSink {
            bytes: Vec::with_capacity(alloc, room)?,
            room,
            most,
            failing,
            calls: 0,
            faults: 0,
        })
    }

    /// The bytes that were written.
    pub fn bytes(&self) -> &[u8]
        ensures { result.now ≡ self.now.held }
    {
        &self.bytes
    }
}

impl Sink for MemSink {
    ghost held = { λ s. Some s.held };

    ghost faults = { λ s. s.faults };

    fn write(&mut self, piece: &[u8]) -> Result<usize, Failed>
        ensures fails { IsErr result ↔ FailsToTake self.old piece.now }
        ensures count { IfOk result (λ n.
            n ≡ min (length piece.now) (min self.old.most (self.old.room - length self.old.held))) }
        ensures taken { IfOk result (λ n. self.new ≡ record self.old {
          held = self.old.held ++ take n piece.now;
          calls = counted self.old.calls;
        }) }
        ensures kept { OnErr result (self.new ≡ record self.old {
          calls = counted self.old.calls;
          faults = counted self.old.faults;
        }) }
        ensures bound { WritesAtMost result piece.now }
        ensures some { IfOk result (λ n. 0 < length piece.now → 0 < n) }
        ensures bytes { WriteAppends (Some self.old.held) (Some self.new.held) result piece.now }
        ensures cause { HasCause self.old.faults self.new.faults result }
    {
        let listed = is_listed(&mut self.calls, self.failing.as_slice());
        let left = self.room - self.bytes.len();
        let full = left == 0 && !piece.is_empty();
        let count = piece.len().min(self.most.min(left));
        if listed || full || self.bytes.extend_from_slice(&piece[..count]).is_err() {
            self.faults = self.faults.saturating_add(1);
            return Err(Failed);
        }
        Ok(count)
    }
}

// Counts a call, and says whether its number stands in the list. Past the last number of 64 bits
// none does.
fn is_listed(calls: &mut u64, failing: &[u64]) -> bool
    ensures calls { calls.new ≡ counted calls.old }
    ensures listed { IsTrue result ↔ IsNextListed failing.now calls.old }
{
    match calls.checked_add(1) {
        Some(number) => {
            *calls = number;
            failing.contains(&number)
        }
        None => false,
    }
}
