ghost use Rattle.std.specs.Prelude.{◌≡◌, ◌<◌, ◌∷◌, [], Some, IsOk};
ghost use Rattle.port_model.specs.Draws.{Draws};
ghost use Rattle.port_model.specs.Words.{bytes_of_words, left_of_words};

use crate::randoms::{RandomFault, Randoms};
use rand_core::Rng;

// The number of bytes of a word.
const WORD_SIZE: usize = 4;

/// A random source over a generator, which never fails. It gives the bytes of the generator's
/// successive `next_u32` words, each little-endian, and keeps the rest of a word for the next call.
#[derive(Drop)]
pub struct MemRandoms<G: Rng> {
    generator: G,
    word: u32,
    /// How many bytes of the word were given.
    given: usize,
}

impl<G: Rng> MemRandoms<G> {
    /// A random source that has taken no word yet. It takes no memory.
    pub fn new(generator: G) -> MemRandoms<G>
        ensures left { ⟦<MemRandoms<G> as Randoms>⟧.left result ≡ Some (bytes_of_words (G.stream generator)) }
        ensures faults { ⟦<MemRandoms<G> as Randoms>⟧.faults result ≡ 0 }
    {
        MemRandoms {
            generator,
            word: 0,
            given: WORD_SIZE,
        }
    }

    // Takes the next word where no byte of the last one is left.
    fn have_byte(&mut self)
        ensures some { self.new.given < WORD_SIZE }
        ensures same { Draws (⟦<MemRandoms<G> as Randoms>⟧.left self.old) (⟦<MemRandoms<G> as Randoms>⟧.left self.new) [] }
    {
        if self.given >= WORD_SIZE {
            self.word = self.generator.next_u32();
            self.given = 0;
        }
    }

    // The next byte.
    fn next_byte(&mut self) -> u8
        ensures { Draws (⟦<MemRandoms<G> as Randoms>⟧.left self.old) (⟦<MemRandoms<G> as Randoms>⟧.left self.new) (result ∷ []) }
    {
        self.have_byte();
        let bytes = self.word.to_le_bytes();
        let byte = bytes[self.given];
        self.given += 1;
        byte
    }
}

impl<G: Rng> Randoms for MemRandoms<G> {
    ghost left = { λ r. Some (left_of_words r.word r.given (G.stream r.generator)) };

    ghost faults = { λ r. 0 };

    /// It takes no memory.
    fn fill(&mut self, out: &mut [u8]) -> Result<(), RandomFault>
        ensures never_fails { IsOk result }
        ensures drawn { Draws (⟦<MemRandoms<G> as Randoms>⟧.left self.old) (⟦<MemRandoms<G> as Randoms>⟧.left self.new) out.new }
    {
        for byte in out.iter_mut() {
            *byte = self.next_byte();
        }
        Ok(())
    }
}
