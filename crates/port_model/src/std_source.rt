ghost use Rattle.std.specs.Prelude.{◌≡◌, false};

use crate::source::{Source, SourceFault};
use std::io::Read;

/// A source over a reader of std. It makes one read a call, and tells what the reader tells.
#[derive(Drop)]
pub struct StdSource<T: Read> {
    reader: T,
    ended: bool,
    faults: u64,
}

impl<T: Read> StdSource<T> {
    /// A source that has failed at no call yet. It takes no memory.
    pub fn new(reader: T) -> StdSource<T>
        ensures left { ⟦<StdSource<T> as Source>⟧.left result ≡ T.remaining reader }
        ensures ended { ⟦<StdSource<T> as Source>⟧.ended result ≡ false }
        ensures faults { ⟦<StdSource<T> as Source>⟧.faults result ≡ 0 }
    {
        StdSource {
            reader,
            ended: false,
            faults: 0,
        }
    }
}

impl<T: Read> Source for StdSource<T> {
    ghost left = { λ s. T.remaining s.reader };

    ghost ended = { λ s. s.ended };

    ghost faults = { λ s. s.faults };

    fn take(&mut self, out: &mut [u8]) -> Result<usize, SourceFault> {
        let faults = self.faults;
        match self.reader.read(out) {
            Ok(n) => {
                if n == 0 && !out.is_empty() {
                    self.ended = true;
                }
                Ok(n)
            }
            Err(_) => {
                self.faults = faults.saturating_add(1);
                Err(SourceFault)
            }
        }
    }
}
