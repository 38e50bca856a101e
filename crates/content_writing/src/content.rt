//! Contents that are given piece by piece.
ghost use Rattle.std.specs.Prelude.{◌≡◌, ◌≤◌, ◌<◌, ◌+◌, ℕ, List, Option, Err, IfOk, IfErr};
ghost use Rattle.std.specs.Borrow.{GName};
ghost use Rattle.port_model.specs.Counts.{CountRose};
ghost use Rattle.folder_spec.specs.Path.{Path};
ghost use Rattle.folder_spec.specs.View.{Found};
ghost use Rattle.content_writing.specs.Content.{Coming, Stands, IsReady, Gives, IsContentFault, TakesUpTo, most_taken};
ghost use Rattle.vault_faults.specs.Limits.{content_limit};

use chunk_files::ChunkBuf;
use folder_model::Folder;
use item_making::PutFault;

/// The content of a new file, given piece by piece.
///
/// It has at most 2^40 bytes, and reads at most one file of the folder, which has to stay as it is meanwhile.
pub trait Content<F: Folder> {
    /// The path that it reads, if it reads one.
    ghost reads: { Self → Option Path };

    /// What is still to come, by what stands at that path, where the content tells it.
    ghost coming: { Self → Found → Option Coming };

    /// How many bytes it may still give.
    ghost room: { Self → ℕ };

    /// What the source that it reads has left, if it reads one that tells that.
    ghost left: { Self → Option (List ℕ) };

    /// How many calls of the source that it reads have failed.
    ghost faults: { Self → ℕ };

    /// The name of the borrow that it keeps, if it keeps one.
    ghost lender: { Self → GName };

    /// Puts the next bytes at the front of `out`, and answers how many: at most `most`, and none only at the end.
    fn piece(&mut self, folder: &mut F, out: &mut ChunkBuf, most: usize) -> Result<usize, PutFault>
        requires some { 0 < most }
        requires most { most ≤ 32816 }
        requires ready { IsReady (reads self.old) (F.told folder.old) (coming self.old) }
        ensures told { F.told folder.new ≡ F.told folder.old }
        ensures reads { reads self.new ≡ reads self.old }
        ensures ready { IsReady (reads self.new) (F.told folder.new) (coming self.new) }
        ensures gives { (found : Found) → Stands (reads self.old) (F.told folder.old) found → Gives result out.new (coming self.old found) (coming self.new found) }
        ensures size { IfOk result (λ n. n ≤ most) }
        ensures room { IfOk result (λ n. n + room self.new ≤ room self.old) }
        ensures taken { TakesUpTo (most_taken result) (left self.old) (left self.new) }
        ensures shrinks { room self.new ≤ room self.old }
        ensures fault { IfErr result (λ fault. IsContentFault (reads self.old) fault) }
        ensures failed { result ≡ Err PutFault.Failed → CountRose (F.faults folder.old) (F.faults folder.new) }
        ensures source { result ≡ Err PutFault.Source → CountRose (faults self.old) (faults self.new) }
        ensures grows { F.faults folder.old ≤ F.faults folder.new }
        ensures counted { faults self.old ≤ faults self.new }
        ensures lender { lender self.new ≡ lender self.old };

    /// It has at most 2^40 bytes.
    ghost fits: { (content : Self) → room content ≤ content_limit };
}
