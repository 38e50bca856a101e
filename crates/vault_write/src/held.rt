//! A chunk of which a part is still to be given.
ghost use Rattle.std.specs.Prelude.{◌≡◌, ◌≤◌, ℕ, List, take, drop, length, min, [], Some, Err, IfOk, IfErr};
ghost use Rattle.port_model.specs.Counts.{CountRose};
ghost use Rattle.folder_spec.specs.View.{FileOf};
ghost use Rattle.folder_spec.specs.Seen.{IfSeen};
ghost use Rattle.vault_read.specs.Contents.{IsBeingRead, still};
ghost use Rattle.vault_write.specs.ContentsComing.{held_before};
ghost use Rattle.vault_write.specs.HeldChunks.{Refills};
ghost use Rattle.content_writing.specs.Content.{IsContentFault};

use chunk_files::ChunkBuf;
use content_writing::PutFault;
use folder_model::Folder;
use std::alloc::{AllocError, Global};
use std::marker::Model;
use vault_read::ContentReader;

// The bytes of a chunk from `start` to `end`. Contracts see them as a list.
#[derive(Drop)]
pub struct Held {
    chunk: ChunkBuf,
    start: usize,
    end: usize,
}

impl Model for Held {
    ghost use Rattle.std.specs.Prelude.{◌≡◌, ◌≤◌, ◌-◌, ℕ, List, take, drop, length};

    ghost Value = { List ℕ };

    ghost view = { λ h. take (h.end - h.start) (drop h.start h.chunk) };

    ghost invariant = { λ h. (h.start ≤ h.end) × (h.end ≤ length h.chunk) };
}

impl Held {
    // None, with a buffer for a chunk.
    pub(crate) fn new(alloc: Global) -> Result<Held, AllocError>
        ensures { IfOk result (λ held. held ≡ []) }
    {
        Ok(Held {
            chunk: ChunkBuf::new(alloc)?,
            start: 0,
            end: 0,
        })
    }

    // Holds no bytes.
    pub(crate) fn clear(&mut self)
        ensures { self.new ≡ [] }
    {
        self.start = 0;
        self.end = 0;
    }

    // Holds the next chunk of a file that is being read, where no bytes are held.
    pub(crate) fn refill<F: Folder>(
        &mut self,
        reader: &mut ContentReader,
        folder: &mut F,
    ) -> Result<(), PutFault>
        requires { IfSeen (F.told folder.old) (λ v. IsBeingRead v reader.old.at reader.old.decoding) }
        ensures told { F.told folder.new ≡ F.told folder.old }
        ensures at { reader.new.at ≡ reader.old.at }
        ensures suits { IfSeen (F.told folder.old) (λ v. IsBeingRead v reader.new.at reader.new.decoding) }
        ensures refills { IfSeen (F.told folder.old) (λ v. (bytes : List ℕ) → v reader.old.at ≡ FileOf bytes
            → Refills self.new (held_before reader.old.at self.old (still reader.old.decoding bytes)) (held_before reader.old.at self.new (still reader.new.decoding bytes)) result) }
        ensures none { IfErr result (λ fault. self.new ≡ []) }
        ensures fault { IfErr result (λ fault. IsContentFault (Some reader.old.at) fault) }
        ensures grows { F.faults folder.old ≤ F.faults folder.new }
        ensures failed { result ≡ Err PutFault.Failed → CountRose (F.faults folder.old) (F.faults folder.new) }
    {
        if self.start < self.end {
            return Ok(());
        }
        self.start = 0;
        self.end = 0;
        self.end = reader.next(folder, &mut self.chunk)?;
        Ok(())
    }

    // Moves the first bytes, at most so many, to the front of `out`, and answers how many.
    pub(crate) fn give(&mut self, out: &mut ChunkBuf, most: usize) -> usize
        requires { most ≤ 32816 }
        ensures count { result ≡ min most (length self.old) }
        ensures given { take result out.new ≡ take result self.old }
        ensures left { self.new ≡ drop result self.old }
    {
        let count = most.min(self.end - self.start);
        out.put_at(0, &self.chunk.bytes()[self.start..self.start + count]);
        self.start += count;
        count
    }
}
