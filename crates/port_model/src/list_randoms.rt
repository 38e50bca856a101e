ghost use Rattle.std.specs.Prelude.{◌≡◌, ◌≤◌, ◌↔◌, [], ◌++◌, length, drop, Some, IsTrue, IsErr, OnOk, OnErr, is_err, if◌then◌else◌, slice_get};
ghost use Rattle.port_model.specs.Counts.{CountRose, IsCounted, counted_up};
ghost use Rattle.port_model.specs.Draws.{Draws};
ghost use Rattle.port_model.specs.Fakes.{Unread, unread, lacks};

use crate::randoms::{RandomFault, Randoms};
use std::marker::Model;

/// A random source over a list of bytes. It fails at the calls that are listed, counted from 1, and
/// where fewer bytes are left than a call asks for.
#[derive(Drop)]
pub struct ListRandoms {
    bytes: Vec<u8>,
    at: usize,
    calls: u64,
    fails: Vec<u64>,
    faults: u64,
}

impl Model for ListRandoms {
    ghost Value = { Unread };

    ghost view = { λ r. record { left = drop r.at r.bytes.items; calls = r.calls; fails = r.fails.items; faults = r.faults } };

    ghost invariant = { λ r. r.at ≤ length r.bytes.items };
}

impl ListRandoms {
    /// A random source that gives `bytes` and fails at the calls whose numbers `fails` has.
    pub fn new(bytes: Vec<u8>, fails: Vec<u64>) -> ListRandoms
        ensures { result ≡ unread bytes.items fails.items }
    {
        ListRandoms {
            bytes,
            at: 0,
            calls: 0,
            fails,
            faults: 0,
        }
    }
}

impl Randoms for ListRandoms {
    ghost left = { λ r. Some (slice_get r.left) };

    ghost faults = { λ r. r.faults };

    fn fill(&mut self, out: &mut [u8]) -> Result<(), RandomFault>
        ensures fails { IsErr result ↔ IsTrue (lacks self.old out.new) }
        ensures moved { OnOk result (self.old.left ≡ out.new ++ self.new.left) }
        ensures fault_moves_nothing { OnErr result (self.new.left ≡ self.old.left) }
        ensures calls { self.new.calls ≡ counted_up self.old.calls }
        ensures list { self.new.fails ≡ self.old.fails }
        ensures faults { self.new.faults ≡ (if is_err result then counted_up self.old.faults else self.old.faults) }

        ensures drawn { OnOk result (Draws (Some (slice_get self.old.left)) (Some (slice_get self.new.left)) out.new) }
        ensures fault_draws_nothing { OnErr result (Draws (Some (slice_get self.old.left)) (Some (slice_get self.new.left)) []) }
        ensures fault_counted { OnErr result (CountRose self.old.faults self.new.faults) }
        ensures counted { IsCounted self.old.faults self.new.faults }
    {
        self.calls = self.calls.saturating_add(1);
        let left = &self.bytes[self.at..];
        if self.fails.contains(&self.calls) || left.len() < out.len() {
            self.faults = self.faults.saturating_add(1);
            return Err(RandomFault);
        }
        let count = out.len();
        out.copy_from_slice(&left[..count]);
        self.at += count;
        Ok(())
    }
}
