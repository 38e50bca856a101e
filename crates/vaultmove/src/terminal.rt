//! What is written to a terminal.
ghost use Rattle.std.specs.Prelude.{◌≡◌};
ghost use Rattle.vaultmove.specs.Terminal.{is_control};

use port_model::{Sink, SinkFault};

// The byte with which UTF-8 writes U+0080 to U+00BF, behind which stands the number itself.
const LEAD: u8 = 0xc2;

const DIGITS: [u8; 16] = *b"0123456789abcdef";

/// A sink for texts, before a terminal where it shows: the control characters U+0080 to U+009F, which a name may have and a terminal may
/// obey, come as `\xc2\xHH`, as a PATH writes them. A character that two pieces cut waits for the second one. All that is written is
/// UTF-8, so none waits at the end. It tells nothing of what it took.
#[derive(Drop)]
pub struct ShownSink<S: Sink> {
    inner: S,
    shows: bool,
    waits: bool,
    faults: u64,
}

impl<S: Sink> ShownSink<S> {
    pub fn new(inner: S, shows: bool) -> ShownSink<S> {
        ShownSink {
            inner,
            shows,
            waits: false,
            faults: 0,
        }
    }

    fn put_shown(&mut self, piece: &[u8]) -> Result<(), SinkFault>
        ensures { self.new.faults ≡ self.old.faults }
    {
        let mut from = 0;
        for at in 0..piece.len() {
            let byte = piece[at];
            if self.waits {
                self.waits = false;
                self.put_behind_lead(byte)?;
                from = at.saturating_add(1);
            } else if byte == LEAD {
                self.inner.put(&piece[from.min(at)..at])?;
                self.waits = true;
                from = at.saturating_add(1);
            }
        }
        self.inner.put(&piece[from.min(piece.len())..])
    }

    // Writes a character whose first byte waited.
    fn put_behind_lead(&mut self, byte: u8) -> Result<(), SinkFault>
        ensures { self.new.faults ≡ self.old.faults }
    {
        if is_control(byte) {
            self.inner.put(b"\\xc2\\x")?;
            self.inner.put(&[digit(byte / 16), digit(byte)])
        } else {
            self.inner.put(&[LEAD, byte])
        }
    }
}

impl<S: Sink> Sink for ShownSink<S> {
    ghost use Rattle.std.specs.Prelude.{None};

    ghost taken = { λ s. None };

    ghost faults = { λ s. s.faults };

    fn put(&mut self, piece: &[u8]) -> Result<(), SinkFault> {
        let faults = self.faults;
        let result = if self.shows {
            self.put_shown(piece)
        } else {
            self.inner.put(piece)
        };
        if result.is_err() {
            self.faults = faults.saturating_add(1);
        }
        result
    }
}

// Whether a byte behind the first one makes a control character.
fn is_control(byte: u8) -> bool
    ensures { result ≡ is_control byte }
{
    byte >= 0x80 && byte < 0xa0
}

// A number below 16 as a digit.
fn digit(number: u8) -> u8 {
    DIGITS[usize::from(number % 16)]
}
