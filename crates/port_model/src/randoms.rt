ghost use Rattle.std.specs.Prelude.{ℕ, [], OnOk, OnErr, Option};
ghost use Rattle.port_model.specs.Counts.{CountRose, IsCounted};
ghost use Rattle.port_model.specs.Draws.{ByteStream, Draws};

/// The random source failed; its count of faults says how often.
#[derive(Clone, Copy, Debug, PartialEq, Eq)]
pub struct RandomFault;

/// Where random bytes come from.
pub trait Randoms {
    // The stream of bytes that is left, where the object tells it.
    ghost left: { Self → Option ByteStream };

    // How many calls have failed.
    ghost faults: { Self → ℕ };

    /// Fills `out` with the first bytes of the stream. What stands in `out` after a fault may be
    /// anything.
    fn fill(&mut self, out: &mut [u8]) -> Result<(), RandomFault>
        ensures drawn { OnOk result (Draws (left self.old) (left self.new) out.new) }

        // A fault draws nothing, and is counted.
        ensures fault_draws_nothing { OnErr result (Draws (left self.old) (left self.new) []) }
        ensures fault_counted { OnErr result (CountRose (faults self.old) (faults self.new)) }
        ensures counted { IsCounted (faults self.old) (faults self.new) };
}
