ghost use Rattle.std.specs.Prelude.{◌≡◌, ◌<◌, ◌≤◌, ◌↔◌, [], ◌++◌, length, take, drop, min, Some, IsTrue, IsErr, IfOk, OnErr, is_err, if◌then◌else◌, ◌==◌};
ghost use Rattle.port_model.specs.Counts.{CountRose, IsCounted, counted_up};
ghost use Rattle.port_model.specs.Fakes.{Unread, unread, fails_next};

use crate::source::{Source, SourceFault};
use std::marker::Model;

/// A source over bytes in memory, which fails at the calls that are listed, counted from 1.
#[derive(Drop)]
pub struct MemSource {
    bytes: Vec<u8>,
    at: usize,
    calls: u64,
    fails: Vec<u64>,
    faults: u64,
}

impl Model for MemSource {
    ghost Value = { Unread };

    ghost view = { λ s. record { left = drop s.at s.bytes.items; calls = s.calls; fails = s.fails.items; faults = s.faults } };

    ghost invariant = { λ s. s.at ≤ length s.bytes.items };
}

impl MemSource {
    /// A source of `bytes` that fails at the calls whose numbers `fails` has.
    pub fn new(bytes: Vec<u8>, fails: Vec<u64>) -> MemSource
        ensures { result ≡ unread bytes.items fails.items }
    {
        MemSource {
            bytes,
            at: 0,
            calls: 0,
            fails,
            faults: 0,
        }
    }
}

impl Source for MemSource {
    ghost left = { λ s. Some s.left };

    ghost ended = { λ s. length s.left == 0 };

    ghost faults = { λ s. s.faults };

    fn take(&mut self, out: &mut [u8]) -> Result<usize, SourceFault>
        ensures fails { IsErr result ↔ IsTrue (fails_next self.old.fails self.old.calls) }
        ensures count { IfOk result (λ n. n ≡ min (length out.new) (length self.old.left)) }
        ensures calls { self.new.calls ≡ counted_up self.old.calls }
        ensures list { self.new.fails ≡ self.old.fails }
        ensures faults { self.new.faults ≡ (if is_err result then counted_up self.old.faults else self.old.faults) }

        ensures within { IfOk result (λ n. n ≤ length out.new) }
        ensures moved { IfOk result (λ n. self.old.left ≡ take n out.new ++ self.new.left) }
        ensures end { IfOk result (λ n. n ≡ 0 → 0 < length out.new →
            IsTrue (length self.new.left == 0) × (self.new.left ≡ [])) }
        ensures fault_takes_nothing { OnErr result (self.new.left ≡ self.old.left) }
        ensures fault_counted { OnErr result (CountRose self.old.faults self.new.faults) }
        ensures counted { IsCounted self.old.faults self.new.faults }
    {
        self.calls = self.calls.saturating_add(1);
        if self.fails.contains(&self.calls) {
            self.faults = self.faults.saturating_add(1);
            return Err(SourceFault);
        }
        let left = &self.bytes[self.at..];
        let count = left.len().min(out.len());
        out[..count].copy_from_slice(&left[..count]);
        self.at += count;
        Ok(count)
    }
}
