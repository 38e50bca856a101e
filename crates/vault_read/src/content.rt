//! Writing the content of a file of a vault.
ghost use Rattle.std.specs.Prelude.{◌≡◌, ◌≢◌, ℕ, List, IfOk, IfErr, Ok, Err};
ghost use Rattle.std.specs.Io.KnownBytes.{Keeps};
ghost use Rattle.port_model.specs.Counts.{Blames};
ghost use Rattle.folder_spec.specs.View.{View, FileOf};
ghost use Rattle.folder_spec.specs.Seen.{IfSeen, IsSeen};
ghost use Rattle.folder_model.specs.Answers.{OnlyLooks};
ghost use Rattle.vault_spec.specs.Vault.{format_of};
ghost use Rattle.vault_read.specs.Finding.{Refuses};
ghost use Rattle.vault_read.specs.Reading.{IsContentAt};
ghost use Rattle.vault_read.specs.Contents.{IsBeingRead, still, content_at, IsCatFault, Writes, Cats};

use crate::finding::find;
use crate::reader::ContentReader;
use crate::vault::Vault;
use chunk_files::ChunkBuf;
use folder_model::{FPath, Folder};
use plain_tree::{NodeKind, PlainPath};
use port_model::Sink;
use std::alloc::Global;
use vault_faults::{CatFault, FindFault};
use vault_spec::laws::what_is_found_stands;

/// Writes the content of the file at a plain path chunk by chunk, and answers its length.
///
/// Its buffers are taken before the first byte is written. Of a damaged file exactly the chunks before the fault are written, and of
/// one of more than 2^40 bytes those that lie whole in the first 2^40.
pub fn cat<F: Folder, O: Sink>(
    alloc: Global,
    folder: &mut F,
    vault: &Vault,
    path: &PlainPath,
    out: &mut O,
) -> Result<u64, CatFault>
    ensures looks { OnlyLooks (F.told folder.old) (F.told folder.new) (result ≡ Err CatFault.Failed) (F.faults folder.old) (F.faults folder.new) }
    ensures cats { (v : View) → IsSeen (F.told folder.old) v
        → Cats (format_of vault.now.vault) vault.now.root v path.now result (O.taken out.old) (O.taken out.new) }
    ensures fault { IfErr result (λ fault. IsCatFault fault) }
    ensures nothing { (fault : FindFault) → result ≡ Err (CatFault.Find fault) → Keeps (O.taken out.old) (O.taken out.new) }
    ensures output { Blames (result ≡ Err CatFault.Sink) (O.faults out.old) (O.faults out.new) }
{
    let at = content_of(alloc, folder, vault, path)?;
    let mut reader = ContentReader::start(alloc, vault, &at)?;
    let mut chunk = ChunkBuf::new(alloc)?;
    write_all(folder, &mut reader, &mut chunk, out)
}

// Where the content of the file at a plain path is.
fn content_of<F: Folder>(
    alloc: Global,
    folder: &mut F,
    vault: &Vault,
    path: &PlainPath,
) -> Result<FPath, FindFault>
    ensures looks { OnlyLooks (F.told folder.old) (F.told folder.new) (result ≡ Err FindFault.Failed) (F.faults folder.old) (F.faults folder.new) }
    ensures place { IfOk result (λ at. IfSeen (F.told folder.old) (λ v. IsContentAt (format_of vault.now.vault) vault.now.root v path.now at)) }
    ensures fault { IfErr result (λ fault. IfSeen (F.told folder.old) (λ v. Refuses vault.now.root (content_at (format_of vault.now.vault) vault.now.root v path.now) fault)) }
{
    what_is_found_stands();
    let place = find(alloc, folder, vault, path)?;
    match place.node {
        NodeKind::File => Ok(place.at),
        NodeKind::Dir => Err(FindFault::WrongKind(path.copy()?)),
    }
}

// Writes what is left of a content, and answers its length.
fn write_all<F: Folder, O: Sink>(
    folder: &mut F,
    reader: &mut ContentReader,
    chunk: &mut ChunkBuf,
    out: &mut O,
) -> Result<u64, CatFault>
    requires file { IfSeen (F.told folder.old) (λ v. IsBeingRead v reader.old.at reader.old.decoding) }
    ensures looks { OnlyLooks (F.told folder.old) (F.told folder.new) (result ≡ Err CatFault.Failed) (F.faults folder.old) (F.faults folder.new) }
    ensures writes { IfSeen (F.told folder.old) (λ v. (bytes : List ℕ) → v reader.old.at ≡ FileOf bytes
        → Writes reader.old.at result (still reader.old.decoding bytes) (O.taken out.old) (O.taken out.new)) }
    ensures read { (fault : FindFault) → result ≢ Err (CatFault.Find fault) }
    ensures fault { IfErr result (λ fault. IsCatFault fault) }
    ensures output { Blames (result ≡ Err CatFault.Sink) (O.faults out.old) (O.faults out.new) }
{
    let mut total = 0;
    'chunks: loop {
        let count = reader.next(folder, chunk)?;
        if count == 0 {
            return Ok(total);
        }
        match out.put(&chunk.bytes()[..count]) {
            Ok(()) => total += count as u64,
            Err(_) => return Err(CatFault::Sink),
        }
    }
}
