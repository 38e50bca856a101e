//! Reading the contents of a vault for their faults.
ghost use Rattle.std.specs.Prelude.{◌≡◌, ◌++◌, ℕ, List, IfOk, IfErr, OnOk, Err, Contains, option_to_list};
ghost use Rattle.chunk_files.specs.Reading.{Wanting};
ghost use Rattle.folder_spec.specs.Path.{Path};
ghost use Rattle.folder_spec.specs.Seen.{IfSeen, ShowsFile};
ghost use Rattle.folder_model.specs.Answers.{OnlyLooks};
ghost use Rattle.vault_faults.specs.declared.fault.Limit.TheVariants.{Length};
ghost use Rattle.vault_read.specs.Contents.{IsBeingRead, Suits, limited_reading, still};
ghost use Rattle.vault_spec.specs.Findings.{finding_of, number_of};
ghost use Rattle.vault_spec.specs.Vault.{format_of};
ghost use Rattle.vault_check.specs.Contents.{AreContentsOf, EndsAs, EndsFirst, HasRead, IsContentFault, StillEnds, content_of, ended_by, ending_of, told_damage};

use crate::fault::CheckFault;
use crate::order::paths_in_order;
use chunk_files::{ChunkBuf, ChunkFault};
use folder_model::{FPath, Folder};
use plain_tree::NodeKind;
use std::alloc::{AllocError, Global};
use vault_faults::CatFault;
use vault_read::{ContentReader, Vault};
use vault_walk::{Finding, PlanItem};

// The paths of the files' contents in order, each once.
pub(crate) fn contents_of(alloc: Global, items: &[PlanItem]) -> Result<Vec<FPath>, AllocError>
    ensures { IfOk result (λ contents. AreContentsOf items.now contents.items) }
{
    let mut contents = Vec::new(alloc);
    for item in items {
        add_content(&mut contents, item)?;
    }
    Ok(paths_in_order(contents))
}

// Adds the path of an item's content, if it is a file.
fn add_content(contents: &mut Vec<FPath>, item: &PlanItem) -> Result<(), AllocError>
    ensures { OnOk result (contents.new.items ≡ contents.old.items ++ option_to_list (content_of item.now)) }
{
    match item.node {
        NodeKind::File => contents.push(item.at.copy()?)?,
        NodeKind::Dir => {}
    }
    Ok(())
}

// Of these contents each that is damaged, with its first fault.
pub(crate) fn damaged_contents<F: Folder>(
    alloc: Global,
    folder: &mut F,
    vault: &Vault,
    contents: &[FPath],
) -> Result<Vec<Finding>, CheckFault>
    requires { IfSeen (F.told folder.old) (λ v. (at : Path) → Contains contents.now at → ShowsFile v at) }
    ensures looks { OnlyLooks (F.told folder.old) (F.told folder.new) (result ≡ Err CheckFault.Failed) (F.faults folder.old) (F.faults folder.new) }
    ensures damaged { IfOk result (λ damaged. HasRead (F.told folder.old) (format_of vault.now.vault) contents.now damaged.items) }
    ensures length { (named : Path) → result ≡ Err (CheckFault.Limit (Length named)) → IfSeen (F.told folder.old) (λ v. EndsFirst (format_of vault.now.vault) v contents.now named) }
    ensures fault { IfErr result (λ fault. IsContentFault fault) }
{
    let mut chunk = ChunkBuf::new(alloc)?;
    let mut damaged = Vec::new(alloc);
    let mut last = None;
    for at in contents {
        let fault = fault_of(alloc, folder, vault, at, &mut last, &mut chunk)?;
        add_damage(&mut damaged, at, fault)?;
    }
    Ok(damaged)
}

// Adds the finding of a content, if it is damaged.
fn add_damage(
    damaged: &mut Vec<Finding>,
    at: &FPath,
    fault: Option<ChunkFault>,
) -> Result<(), AllocError>
    ensures { OnOk result (damaged.new.items ≡ damaged.old.items ++ told_damage at.now fault) }
{
    match fault {
        Some(fault) => damaged.push(Finding {
            at: at.copy()?,
            number: number_of(fault),
            fault: Some(fault),
        })?,
        None => {}
    }
    Ok(())
}

// 12 where the fault is the header's, and else 13.
fn number_of(fault: ChunkFault) -> u8
    ensures { result ≡ number_of (finding_of fault) }
{
    match fault {
        ChunkFault::NoHeader
        | ChunkFault::HeaderVersion(_)
        | ChunkFault::ZeroId
        | ChunkFault::HeaderTag => 12,
        ChunkFault::ShortChunk(_) | ChunkFault::ZeroNonce(_) | ChunkFault::ChunkTag(_) => 13,
    }
}

// The first fault of a content file, if it has one. The last reader goes on with it.
fn fault_of<F: Folder>(
    alloc: Global,
    folder: &mut F,
    vault: &Vault,
    at: &FPath,
    last: &mut Option<ContentReader>,
    chunk: &mut ChunkBuf,
) -> Result<Option<ChunkFault>, CheckFault>
    requires { IfSeen (F.told folder.old) (λ v. ShowsFile v at.now) }
    ensures looks { OnlyLooks (F.told folder.old) (F.told folder.new) (result ≡ Err CheckFault.Failed) (F.faults folder.old) (F.faults folder.new) }
    ensures ending { IfOk result (λ fault. IfSeen (F.told folder.old) (λ v. EndsAs (format_of vault.now.vault) v at.now (ending_of fault))) }
    ensures length { (named : Path) → result ≡ Err (CheckFault.Limit (Length named)) → (named ≡ at.now)
        × (IfSeen (F.told folder.old) (λ v. EndsAs (format_of vault.now.vault) v at.now Wanting)) }
    ensures fault { IfErr result (λ fault. IsContentFault fault) }
{
    let mut reader = reader_at(alloc, vault, at, last.take())?;
    let fault = first_fault(folder, &mut reader, chunk);
    *last = Some(reader);
    fault
}

// A reader of a content file: the last one, which goes on with it, or a new one.
fn reader_at(
    alloc: Global,
    vault: &Vault,
    at: &FPath,
    last: Option<ContentReader>,
) -> Result<ContentReader, AllocError>
    ensures at { IfOk result (λ reader. reader.at ≡ at.now) }
    ensures still { IfOk result (λ reader. (bytes : List ℕ) → still reader.decoding bytes ≡ limited_reading (format_of vault.now.vault).content bytes) }
    ensures suits { IfOk result (λ reader. (bytes : List ℕ) → Suits reader.decoding bytes) }
{
    let Some(mut reader) = last else {
        return ContentReader::start(alloc, vault, at);
    };
    reader.turn_to(vault, at)?;
    Ok(reader)
}

// The first fault of what is still to be read of a content file, if it has one.
fn first_fault<F: Folder>(
    folder: &mut F,
    reader: &mut ContentReader,
    chunk: &mut ChunkBuf,
) -> Result<Option<ChunkFault>, CheckFault>
    requires { IfSeen (F.told folder.old) (λ v. IsBeingRead v reader.old.at reader.old.decoding) }
    ensures looks { OnlyLooks (F.told folder.old) (F.told folder.new) (result ≡ Err CheckFault.Failed) (F.faults folder.old) (F.faults folder.new) }
    ensures ending { IfOk result (λ fault. IfSeen (F.told folder.old) (λ v. StillEnds v reader.old (ending_of fault))) }
    ensures length { (named : Path) → result ≡ Err (CheckFault.Limit (Length named)) → (named ≡ reader.old.at)
        × (IfSeen (F.told folder.old) (λ v. StillEnds v reader.old Wanting)) }
    ensures fault { IfErr result (λ fault. IsContentFault fault) }
{
    'chunks: loop {
        match reader.next(folder, chunk) {
            Ok(0) => return Ok(None),
            Ok(_) => {}
            Err(fault) => return ended_by(fault),
        }
    }
}

// The fault of a content of which reading ends by this, or why it isn't known.
fn ended_by(fault: CatFault) -> Result<Option<ChunkFault>, CheckFault>
    ensures { result ≡ ended_by fault }
{
    match fault {
        CatFault::Damaged(_, found) => Ok(Some(found)),
        CatFault::Limit(limit) => Err(CheckFault::Limit(limit)),
        CatFault::Failed => Err(CheckFault::Failed),
        _ => Err(CheckFault::NoMemory),
    }
}
