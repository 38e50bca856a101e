ghost use Rattle.std.specs.Prelude.{◌≡◌};

use crate::sink::{Sink, SinkFault};
use std::io::Write;

/// A sink over a writer of std. It writes until the whole piece is taken, and tells what the writer
/// tells. A writer that takes nothing of a piece with bytes has failed.
#[derive(Drop)]
pub struct StdSink<T: Write> {
    writer: T,
    faults: u64,
}

impl<T: Write> StdSink<T> {
    /// A sink that has failed at no call yet. It takes no memory.
    pub fn new(writer: T) -> StdSink<T>
        ensures taken { ⟦<StdSink<T> as Sink>⟧.taken result ≡ T.contents writer }
        ensures faults { ⟦<StdSink<T> as Sink>⟧.faults result ≡ 0 }
    {
        StdSink { writer, faults: 0 }
    }
}

impl<T: Write> Sink for StdSink<T> {
    ghost taken = { λ s. T.contents s.writer };

    ghost faults = { λ s. s.faults };

    fn put(&mut self, piece: &[u8]) -> Result<(), SinkFault> {
        let faults = self.faults;
        let mut at = 0;
        while at < piece.len() {
            match self.writer.write(&piece[at..]) {
                Ok(n) if n > 0 => at += n,
                _ => {
                    self.faults = faults.saturating_add(1);
                    return Err(SinkFault);
                }
            }
        }
        Ok(())
    }
}
