//! The content that a source gives.
ghost use Rattle.std.specs.Prelude.{◌≡◌, ◌-◌, ◌<◌, None, false, take};
ghost use Rattle.content_writing.specs.Content.{coming_from};
ghost use Rattle.vault_faults.specs.Limits.{content_limit};

use crate::content::Content;
use crate::room::Room;
use chunk_files::ChunkBuf;
use folder_model::Folder;
use item_making::PutFault;
use port_model::Source;

/// What a source has left, as the content of a file. Past 2^40 bytes it passes the limit of an input.
#[derive(Drop)]
pub struct SourceContent<'a, I: Source> {
    source: &'a mut I,
    room: Room,
}

impl<'a, I: Source> SourceContent<'a, I> {
    /// The content that a source has left. It takes no memory.
    pub fn new(source: &'a mut I) -> SourceContent<'a, I>
        ensures lender { result.source.ghost_name ≡ source.entry.ghost_name }
        ensures source { result.source.now ≡ source.old }
        ensures room { result.room.bytes ≡ content_limit }
        ensures passed { result.room.passed ≡ false }
    {
        SourceContent {
            source,
            room: Room::new(),
        }
    }
}

impl<F: Folder, I: Source> Content<F> for SourceContent<'_, I> {
    ghost use Rattle.content_writing.specs.Laws.{rooms_fit};

    ghost reads = { λ c. None };

    ghost coming = { λ c found. coming_from c.room.bytes c.room.passed (I.left c.source.now) };

    ghost room = { λ c. c.room.bytes };

    ghost left = { λ c. I.left c.source.now };

    ghost faults = { λ c. I.faults c.source.now };

    ghost lender = { λ c. c.source.ghost_name };

    fn piece(
        &mut self,
        _folder: &mut F,
        out: &mut ChunkBuf,
        most: usize,
    ) -> Result<usize, PutFault> {
        self.room.take(self.source, out.bytes_mut(), most)
    }

    ghost fits = { λ c. rooms_fit c.room };
}
