ghost use Rattle.std.specs.Prelude.{ℕ, List, OnOk, OnErr, Option};
ghost use Rattle.std.specs.Io.KnownBytes.{Appends};
ghost use Rattle.port_model.specs.Counts.{CountRose, IsCounted};
ghost use Rattle.port_model.specs.Told.{AppendsPrefix};

/// The sink failed; its count of faults says how often.
#[derive(Clone, Copy, Debug, PartialEq, Eq)]
pub struct SinkFault;

/// Where output goes.
pub trait Sink {
    // The bytes that were taken, where the sink tells them.
    ghost taken: { Self → Option (List ℕ) };

    // How many calls have failed.
    ghost faults: { Self → ℕ };

    /// Takes the whole piece. At a fault it has taken some front part of it, perhaps none or all.
    fn put(&mut self, piece: &[u8]) -> Result<(), SinkFault>
        ensures whole { OnOk result (Appends (taken self.old) (taken self.new) piece.now) }

        // A fault leaves a prefix of the piece, and is counted.
        ensures fault_takes_a_prefix { OnErr result (AppendsPrefix (taken self.old) (taken self.new) piece.now) }
        ensures fault_counted { OnErr result (CountRose (faults self.old) (faults self.new)) }
        ensures counted { IsCounted (faults self.old) (faults self.new) };
}
