//! Gathering the pieces of a content into chunks.
ghost use Rattle.std.specs.Prelude.{◌≡◌, ◌≤◌, ◌+◌, length, IfErr};
ghost use Rattle.content_writing.specs.Content.{IsContentFault, IsReady, TakesUpTo, still_coming};
ghost use Rattle.content_writing.specs.Streaming.{Gathers, most_gathered};
ghost use Rattle.content_writing.specs.Writing.{Blames};

use crate::content::Content;
use crate::gathered::Gathered;
use chunk_files::ChunkBuf;
use folder_model::Folder;
use item_making::PutFault;

// Gathers the next chunk of a content: fewer bytes than a full one has only at the end.
pub(crate) fn gather<F: Folder, C: Content<F>>(
    folder: &mut F,
    content: &mut C,
    piece: &mut ChunkBuf,
    plain: &mut Gathered,
    full: usize,
) -> Result<(), PutFault>
    requires full { full ≤ 32768 }
    requires ready { IsReady (C.reads content.old) (F.told folder.old) (C.coming content.old) }
    ensures told { F.told folder.new ≡ F.told folder.old }
    ensures reads { C.reads content.new ≡ C.reads content.old }
    ensures ready { IsReady (C.reads content.new) (F.told folder.new) (C.coming content.new) }
    ensures lender { C.lender content.new ≡ C.lender content.old }
    ensures gathered { Gathers full plain.new (still_coming (C.reads content.old) (F.told folder.old) (C.coming content.old)) (still_coming (C.reads content.old) (F.told folder.old) (C.coming content.new)) result }
    ensures fault { IfErr result (λ fault. IsContentFault (C.reads content.old) fault) }
    ensures size { length plain.new ≤ full }
    ensures room { length plain.new + C.room content.new ≤ C.room content.old }
    ensures taken { TakesUpTo (most_gathered result (length plain.new)) (C.left content.old) (C.left content.new) }
    ensures failed { Blames result PutFault.Failed (F.faults folder.old) (F.faults folder.new) }
    ensures source { Blames result PutFault.Source (C.faults content.old) (C.faults content.new) }
{
    plain.clear();
    'pieces: while plain.len() < full {
        let size = content.piece(folder, piece, full - plain.len())?;
        if size == 0 {
            return Ok(());
        }
        plain.push(&piece.bytes()[..size]);
    }
    Ok(())
}
