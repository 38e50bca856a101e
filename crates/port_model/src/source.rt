ghost use Rattle.std.specs.Prelude.{◌≡◌, ℕ, ◌<◌, ◌≤◌, List, length, take, Bool, IsTrue, IfOk, OnErr, Option};
ghost use Rattle.std.specs.Io.KnownBytes.{Consumes, IsAtEnd, Keeps};
ghost use Rattle.port_model.specs.Counts.{CountRose, IsCounted};

/// The source failed; its count of faults says how often.
#[derive(Clone, Copy, Debug, PartialEq, Eq)]
pub struct SourceFault;

/// Where input comes from.
pub trait Source {
    // The bytes that are left, where the source tells them.
    ghost left: { Self → Option (List ℕ) };

    // Whether a call has met the end of the input.
    ghost ended: { Self → Bool };

    // How many calls have failed.
    ghost faults: { Self → ℕ };

    /// Moves the first bytes that are left to the front of `out` and answers how many. It answers 0
    /// only where `out` has no room or the input has ended. What stands in `out` behind them, and all
    /// of `out` after a fault, may be anything.
    fn take(&mut self, out: &mut [u8]) -> Result<usize, SourceFault>
        ensures within { IfOk result (λ n. n ≤ length out.new) }
        ensures moved { IfOk result (λ n. Consumes (left self.old) (left self.new) (take n out.new)) }
        ensures end { IfOk result (λ n. n ≡ 0 → 0 < length out.new →
            IsTrue (ended self.new) × IsAtEnd (left self.new)) }

        // A fault takes nothing, and is counted.
        ensures fault_takes_nothing { OnErr result (Keeps (left self.old) (left self.new)) }
        ensures fault_counted { OnErr result (CountRose (faults self.old) (faults self.new)) }
        ensures counted { IsCounted (faults self.old) (faults self.new) };
}
