//! The content of a file of a vault.
ghost use Rattle.std.specs.Prelude.{◌≡◌, ◌≤◌, [], Some, None, IfOk, IfErr, OnOk, OnErr};
ghost use Rattle.chunk_files.specs.Decoding.{started};
ghost use Rattle.folder_spec.specs.View.{Found};
ghost use Rattle.vault_spec.specs.Vault.{format_of};
ghost use Rattle.vault_faults.specs.Limits.{content_limit};
ghost use Rattle.vault_write.specs.ContentsComing.{coming_read, held_in};

use crate::held::Held;
use chunk_files::ChunkBuf;
use content_writing::{Content, PutFault};
use folder_model::{FPath, Folder};
use std::alloc::{AllocError, Global};
use vault_faults::CONTENT_LIMIT;
use vault_read::{ContentReader, Vault};

/// What a reader of a vault's file still gives, as the content of another file.
#[derive(Drop)]
pub struct VaultContent {
    alloc: Global,
    reader: ContentReader,
    held: Option<Held>,
    room: u64,
    ghost fits: { room ≤ 1099511627776 },
}

impl VaultContent {
    ghost use Rattle.vault_write.specs.VaultContents.{path_of, coming_of};

    /// The content that a reader still gives. It takes no memory; its buffer is taken by the first piece.
    pub fn new(alloc: Global, reader: ContentReader) -> VaultContent
        ensures reads { path_of result ≡ Some reader.at }
        ensures coming { (found : Found) → coming_of result found ≡ coming_read reader content_limit [] found }
    {
        VaultContent {
            alloc,
            reader,
            held: None,
            room: CONTENT_LIMIT,
        }
    }

    /// Goes on with the content of the file at a path of the folder, of a vault. It takes no memory but for the path.
    pub fn turn_to(&mut self, vault: &Vault, at: &FPath) -> Result<(), AllocError>
        ensures reads { OnOk result (path_of self.new ≡ Some at.now) }
        ensures coming { OnOk result ((found : Found) → coming_of self.new found
            ≡ coming_read (record { at = at.now; decoding = started (format_of vault.now.vault).content }) content_limit [] found) }
        ensures unchanged { OnErr result (self.new ≡ self.old) }
    {
        self.reader.turn_to(vault, at)?;
        if let Some(held) = &mut self.held {
            held.clear();
        }
        self.room = CONTENT_LIMIT;
        Ok(())
    }

    // The buffer, taken if there is none yet.
    fn take_held(&mut self) -> Result<Held, AllocError>
        ensures held { IfOk result (λ held. held ≡ held_in self.old.held) }
        ensures none { self.new.held ≡ None }
        ensures kept { IfErr result (λ fault. self.old.held ≡ None) }
        ensures reader { self.new.reader ≡ self.old.reader }
        ensures room { self.new.room ≡ self.old.room }
    {
        match self.held.take() {
            Some(held) => Ok(held),
            None => Held::new(self.alloc),
        }
    }
}

impl<F: Folder> Content<F> for VaultContent {
    ghost use Rattle.vault_write.specs.VaultContents.{path_of, coming_of, vault_contents_fit};

    ghost reads = { λ c. path_of c };

    ghost coming = { λ c found. coming_of c found };

    ghost room = { λ c. c.room };

    ghost left = { λ _. None };

    ghost faults = { λ _. 0 };

    ghost lender = { λ _. 0 };

    fn piece(
        &mut self,
        folder: &mut F,
        out: &mut ChunkBuf,
        most: usize,
    ) -> Result<usize, PutFault> {
        let mut held = self.take_held()?;
        let filled = held.refill(&mut self.reader, folder);
        let most = (most as u64).min(self.room) as usize;
        let count = held.give(out, most);
        self.room -= count as u64;
        self.held = Some(held);
        filled?;
        Ok(count)
    }

    ghost fits = { λ c. vault_contents_fit c };
}
