ghost use Rattle.std.specs.Prelude.{◌≡◌, ◌+◌, ◌-◌, ◌≤◌, ◌↔◌, ◌++◌, length, Some, IsTrue, IsErr, IfOk, OnOk, OnErr, is_err, if◌then◌else◌, vec_capacity, vec_len};
ghost use Rattle.port_model.specs.Counts.{CountRose, IsCounted, counted_up};
ghost use Rattle.port_model.specs.Fakes.{Written, unwritten, refuses};
ghost use Rattle.port_model.specs.Told.{AppendsPrefix};

use crate::sink::{Sink, SinkFault};
use std::alloc::{AllocError, Global};
use std::marker::Model;

/// A sink into memory that was taken when it was made. It fails at the calls that are listed, counted
/// from 1, and at a piece that is longer than the room left, and takes nothing of such a piece.
#[derive(Drop)]
pub struct MemSink {
    bytes: Vec<u8>,
    room: usize,
    calls: u64,
    fails: Vec<u64>,
    faults: u64,
}

impl Model for MemSink {
    ghost Value = { Written };

    ghost view = { λ s. record { taken = s.bytes.items; room = s.room; calls = s.calls; fails = s.fails.items; faults = s.faults } };

    ghost invariant = { λ s. vec_len s.bytes + s.room ≤ vec_capacity s.bytes };
}

impl MemSink {
    /// A sink with room for `room` bytes that fails at the calls whose numbers `fails` has.
    pub fn new(alloc: Global, room: usize, fails: Vec<u64>) -> Result<MemSink, AllocError>
        ensures { IfOk result (λ sink. sink ≡ unwritten room fails.items) }
    {
        Ok(MemSink {
            bytes: Vec::with_capacity(alloc, room)?,
            room,
            calls: 0,
            fails,
            faults: 0,
        })
    }

    /// The bytes that were taken.
    pub fn bytes(&self) -> &[u8]
        ensures { result.now ≡ self.now.taken }
    {
        self.bytes.as_slice()
    }
}

impl Sink for MemSink {
    ghost taken = { λ s. Some s.taken };

    ghost faults = { λ s. s.faults };

    fn put(&mut self, piece: &[u8]) -> Result<(), SinkFault>
        ensures fails { IsErr result ↔ IsTrue (refuses self.old piece.now) }
        ensures room { self.new.room ≡ (if is_err result then self.old.room else self.old.room - length piece.now) }
        ensures calls { self.new.calls ≡ counted_up self.old.calls }
        ensures list { self.new.fails ≡ self.old.fails }
        ensures faults { self.new.faults ≡ (if is_err result then counted_up self.old.faults else self.old.faults) }
        ensures fault_takes_nothing { OnErr result (self.new.taken ≡ self.old.taken) }

        ensures whole { OnOk result (self.new.taken ≡ self.old.taken ++ piece.now) }
        ensures fault_takes_a_prefix { OnErr result (AppendsPrefix (Some self.old.taken) (Some self.new.taken) piece.now) }
        ensures fault_counted { OnErr result (CountRose self.old.faults self.new.faults) }
        ensures counted { IsCounted self.old.faults self.new.faults }
    {
        self.calls = self.calls.saturating_add(1);
        if self.fails.contains(&self.calls) || self.room < piece.len() {
            self.faults = self.faults.saturating_add(1);
            return Err(SinkFault);
        }
        match self.bytes.extend_from_slice(piece) {
            Ok(()) => {
                self.room -= piece.len();
                Ok(())
            }
            Err(_) => unreachable!(),
        }
    }
}
