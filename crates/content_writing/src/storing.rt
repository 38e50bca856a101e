//! Storing the header and the chunks of a content file in a staged file.
ghost use Rattle.std.specs.Prelude.{◌≡◌, ◌≤◌, ◌<◌, ◌+◌, ◌-◌, ◌^◌, Err, true, length, OnErr};
ghost use Rattle.port_model.specs.Counts.{CountRose};
ghost use Rattle.chunk_files.specs.Keys.{format_of};
ghost use Rattle.folder_spec.specs.Seen.{IfSeen, ShowsFile};
ghost use Rattle.folder_staging.specs.Places.{IsStage};
ghost use Rattle.content_writing.specs.Streaming.{BeginsContent, MakesFront, StoresChunk};
ghost use Rattle.content_writing.specs.Writing.{Blames};

use crate::gathered::Gathered;
use chunk_files::laws::made_is_a_front;
use chunk_files::{ChunkBuf, ContentKeys, EncodeFault, Encoder};
use folder_model::{FPath, Folder};
use folder_staging::laws::written_files_are_seen;
use folder_staging::{add_piece, begin_file};
use item_making::PutFault;
use port_model::Randoms;
use port_model::laws::draws_compose;

// Begins the file of a content with its header and its first chunk, if it has bytes.
pub(crate) fn begin_content<F: Folder, R: Randoms>(
    folder: &mut F,
    staged: &FPath,
    keys: ContentKeys,
    encoder: &mut Encoder,
    random: &mut R,
    plain: &[u8],
    piece: &mut ChunkBuf,
    front: &mut Gathered,
) -> Result<(), PutFault>
    requires stage { IsStage (F.told folder.old) staged.now }
    requires at_most { length plain.now ≤ (format_of keys).full_size }
    ensures begun { BeginsContent keys plain.now staged.now (R.left random.old) (R.left random.new) (F.told folder.old) (F.told folder.new) encoder.new result }
    ensures failed { Blames result PutFault.Failed (F.faults folder.old) (F.faults folder.new) }
    ensures random { Blames result PutFault.Random (R.faults random.old) (R.faults random.new) }
{
    written_files_are_seen();
    make_front(keys, encoder, random, plain, piece, front)?;
    begin_file(folder, staged)?;
    Ok(add_piece(folder, staged, front.bytes())?)
}

// Makes the header of a content's file, and behind it the first chunk, if the content has bytes.
fn make_front<R: Randoms>(
    keys: ContentKeys,
    encoder: &mut Encoder,
    random: &mut R,
    plain: &[u8],
    piece: &mut ChunkBuf,
    front: &mut Gathered,
) -> Result<(), EncodeFault>
    requires { length plain.now ≤ (format_of keys).full_size }
    ensures made { MakesFront keys plain.now (R.left random.old) (R.left random.new) encoder.new front.new result }
    ensures random { (R.faults random.old ≤ R.faults random.new) × (result ≡ Err EncodeFault.Random → CountRose (R.faults random.old) (R.faults random.new)) }
{
    made_is_a_front();
    draws_compose();
    front.clear();
    let empty = plain.is_empty();
    let header = encoder.begin(keys, random, empty, piece)?;
    front.push(&piece.bytes()[..header]);
    if empty {
        return Ok(());
    }
    let size = encoder.chunk(random, plain, piece)?;
    front.push(&piece.bytes()[..size]);
    Ok(())
}

// Stores the next chunk, if it has bytes.
pub(crate) fn store_chunk<F: Folder, R: Randoms>(
    folder: &mut F,
    staged: &FPath,
    encoder: &mut Encoder,
    random: &mut R,
    plain: &[u8],
    piece: &mut ChunkBuf,
) -> Result<(), PutFault>
    requires at_most { length plain.now ≤ (format_of encoder.old.keys).full_size }
    requires count { encoder.old.number < 2 ^ 64 - 1 }
    requires open { encoder.old.is_open ≡ true }
    requires file { IfSeen (F.told folder.old) (λ v. ShowsFile v staged.now) }
    ensures none { length plain.now ≡ 0 → (folder.new ≡ folder.old) × (random.new ≡ random.old) × (encoder.new ≡ encoder.old) }
    ensures some { OnErr result (0 < length plain.now) }
    ensures stored { 0 < length plain.now → StoresChunk encoder.old encoder.new plain.now staged.now (R.left random.old) (R.left random.new) (F.told folder.old) (F.told folder.new) result }
    ensures number { encoder.new.number ≤ encoder.old.number + length plain.now }
    ensures failed { Blames result PutFault.Failed (F.faults folder.old) (F.faults folder.new) }
    ensures random { Blames result PutFault.Random (R.faults random.old) (R.faults random.new) }
{
    if plain.is_empty() {
        return Ok(());
    }
    made_is_a_front();
    let size = encoder.chunk(random, plain, piece)?;
    Ok(add_piece(folder, staged, &piece.bytes()[..size])?)
}
