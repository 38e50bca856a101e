//! Writing a content as a content file, one chunk at a time.
ghost use Rattle.std.specs.Prelude.{◌≡◌, ◌≤◌, ◌+◌, IfErr};
ghost use Rattle.folder_staging.specs.Places.{IsStage};
ghost use Rattle.content_writing.specs.Content.{FitsContent, IsReady, TakesUpTo, still_coming};
ghost use Rattle.content_writing.specs.Writing.{Blames, ReadsApart, WritesContent};

use crate::content::Content;
use crate::gathered::Gathered;
use crate::gathering::gather;
use crate::storing::{begin_content, store_chunk};
use chunk_files::{ChunkBuf, ContentKeys, Encoder};
use folder_model::{FPath, Folder};
use folder_staging::finish_file;
use folder_staging::laws::written_files_are_seen;
use item_making::PutFault;
use port_model::Randoms;
use port_model::laws::draws_compose;
use std::alloc::{AllocError, Global};

/// What writing contents takes: an encoder, and room for a piece of a content or of its file, for a chunk, and for the front of the file.
#[derive(Drop)]
pub struct Buffers {
    encoder: Box<Encoder>,
    piece: ChunkBuf,
    plain: Gathered,
    front: Gathered,
}

impl Buffers {
    /// Takes three buffers of some 33,000 bytes, and an encoder under these keys. Contents may be written under others with them.
    pub fn new(alloc: Global, keys: ContentKeys) -> Result<Buffers, AllocError> {
        let Ok(encoder) = Box::new(alloc, Encoder::new(keys)) else {
            return Err(AllocError);
        };
        Ok(Buffers {
            encoder,
            piece: ChunkBuf::new(alloc)?,
            plain: Gathered::new(alloc)?,
            front: Gathered::new(alloc)?,
        })
    }
}

/// Writes a content as a new file at a staged path, so that it lasts through a crash.
///
/// The content is taken a chunk at a time. Drawn are the bytes for the header, and then for each chunk. At every moment all other
/// paths are as they were, and the file holds a front part of the content's file.
pub fn write_content<F: Folder, R: Randoms, C: Content<F>>(
    folder: &mut F,
    staged: &FPath,
    keys: ContentKeys,
    content: &mut C,
    random: &mut R,
    buffers: &mut Buffers,
) -> Result<(), PutFault>
    requires stage { IsStage (F.told folder.old) staged.now }
    requires ready { IsReady (C.reads content.old) (F.told folder.old) (C.coming content.old) }
    requires apart { ReadsApart (C.reads content.old) staged.now }
    ensures written { WritesContent keys staged.now (still_coming (C.reads content.old) (F.told folder.old) (C.coming content.old)) (still_coming (C.reads content.old) (F.told folder.old) (C.coming content.new))
        (R.left random.old) (R.left random.new) (F.told folder.old) (F.told folder.new) result }
    ensures fits { IfErr result (λ fault. FitsContent (C.reads content.old) fault) }
    ensures reads { C.reads content.new ≡ C.reads content.old }
    ensures room { C.room content.new ≤ C.room content.old }
    ensures taken { TakesUpTo (C.room content.old + 1) (C.left content.old) (C.left content.new) }
    ensures lender { C.lender content.new ≡ C.lender content.old }
    ensures failed { Blames result PutFault.Failed (F.faults folder.old) (F.faults folder.new) }
    ensures source { Blames result PutFault.Source (C.faults content.old) (C.faults content.new) }
    ensures random { Blames result PutFault.Random (R.faults random.old) (R.faults random.new) }
{
    write_chunks(
        folder,
        staged,
        keys,
        content,
        random,
        &mut buffers.encoder,
        &mut buffers.piece,
        &mut buffers.plain,
        &mut buffers.front,
    )
}

fn write_chunks<F: Folder, R: Randoms, C: Content<F>>(
    folder: &mut F,
    staged: &FPath,
    keys: ContentKeys,
    content: &mut C,
    random: &mut R,
    encoder: &mut Encoder,
    piece: &mut ChunkBuf,
    plain: &mut Gathered,
    front: &mut Gathered,
) -> Result<(), PutFault>
    requires stage { IsStage (F.told folder.old) staged.now }
    requires ready { IsReady (C.reads content.old) (F.told folder.old) (C.coming content.old) }
    requires apart { ReadsApart (C.reads content.old) staged.now }
    ensures written { WritesContent keys staged.now (still_coming (C.reads content.old) (F.told folder.old) (C.coming content.old)) (still_coming (C.reads content.old) (F.told folder.old) (C.coming content.new))
        (R.left random.old) (R.left random.new) (F.told folder.old) (F.told folder.new) result }
    ensures fits { IfErr result (λ fault. FitsContent (C.reads content.old) fault) }
    ensures reads { C.reads content.new ≡ C.reads content.old }
    ensures room { C.room content.new ≤ C.room content.old }
    ensures taken { TakesUpTo (C.room content.old + 1) (C.left content.old) (C.left content.new) }
    ensures lender { C.lender content.new ≡ C.lender content.old }
    ensures failed { Blames result PutFault.Failed (F.faults folder.old) (F.faults folder.new) }
    ensures source { Blames result PutFault.Source (C.faults content.old) (C.faults content.new) }
    ensures random { Blames result PutFault.Random (R.faults random.old) (R.faults random.new) }
{
    draws_compose();
    written_files_are_seen();
    let full = keys.layout().full();
    gather(folder, content, piece, plain, full)?;
    begin_content(
        folder,
        staged,
        keys,
        encoder,
        random,
        plain.bytes(),
        piece,
        front,
    )?;
    'chunks: while plain.len() == full {
        gather(folder, content, piece, plain, full)?;
        store_chunk(folder, staged, encoder, random, plain.bytes(), piece)?;
    }
    Ok(finish_file(folder, staged)?)
}
