//! The content of a file of the demonstration.
ghost use Rattle.std.specs.Prelude.{◌≡◌, ◌≤◌, ◌<◌, ◌+◌, ℕ, Option, Some, None, Err, Ok, length, take, min, IfOk, IfErr};
ghost use Rattle.port_model.specs.Counts.{CountRose};
ghost use Rattle.folder_spec.specs.View.{Found};
ghost use Rattle.content_writing.specs.Content.{Stands, IsReady, Gives, IsContentFault};
ghost use Rattle.demo_core.specs.Contents.{coming_of};
ghost use Rattle.demo_core.specs.Demonstration.{size_of};

use crate::items::{fill, size_of};
use chunk_files::ChunkBuf;
use content_writing::{Content, PutFault};
use folder_model::Folder;

/// The content of a file of the demonstration, which is made as it is asked for.
#[derive(Drop)]
pub struct MadeBytes {
    seed: u64,
    number: u32,
    // How many bytes were given, and how many are still to come.
    given: u32,
    left: u32,
    ghost within: { given + left ≤ 70000 },
    ghost fits: { left ≤ 1099511627776 },
}

impl MadeBytes {
    /// The content of the file of this number. It takes no memory.
    pub fn of(seed: u64, number: u32) -> MadeBytes
        ensures seed { result.seed ≡ seed }
        ensures number { result.number ≡ number }
        ensures given { result.given ≡ 0 }
        ensures left { result.left ≡ size_of seed number }
    {
        MadeBytes {
            seed,
            number,
            given: 0,
            left: size_of(seed, number),
        }
    }
}

impl<F: Folder> Content<F> for MadeBytes {
    ghost use Rattle.demo_core.specs.Laws.{rooms_fit};

    ghost reads = { λ c. None };

    ghost coming = { λ c found. Some (coming_of c.seed c.number c.given c.left) };

    ghost room = { λ c. c.left };

    ghost left = { λ c. None };

    ghost faults = { λ c. 0 };

    ghost lender = { λ c. 0 };

    fn piece(
        &mut self,
        _folder: &mut F,
        out: &mut ChunkBuf,
        most: usize,
    ) -> Result<usize, PutFault> {
        let count = most.min(self.left as usize);
        let (front, _) = out.bytes_mut().split_at_mut(count);
        fill(front, self.seed, self.number, self.given);
        self.given += count as u32;
        self.left -= count as u32;
        Ok(count)
    }

    ghost fits = { λ c. rooms_fit c };
}
