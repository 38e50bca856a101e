//! Laws of the definitions. Each function computes nothing, and its clauses are the law; the laws that it rests on are called.
ghost use Rattle.std.specs.Prelude.{◌≡◌, ℕ, List, [], Some};
ghost use Rattle.chunk_files.specs.Decoding.{started};
ghost use Rattle.chunk_files.specs.Keys.{Keys};
ghost use Rattle.folder_spec.specs.Path.{Path};
ghost use Rattle.folder_spec.specs.View.{FileOf};
ghost use Rattle.vault_faults.specs.Limits.{content_limit};
ghost use Rattle.vault_read.specs.Contents.{limited_reading};
ghost use Rattle.vault_write.specs.Showing.{EditsShowTrees, EditsBeforeTheLastKeepTrees, SettledEditsShowTrees};
ghost use Rattle.vault_write.specs.ContentsComing.{coming_read, held_before};

use chunk_files::laws::readings_are_no_longer;
use folder_spec::laws::{edits_are_published, roots_show_their_own};

/// Where edits by which an item comes alone to a vault are published, each table shows the old tree or the new one: the old one until
/// the last of them is, and the new one once they are settled.
pub fn edits_show_trees()
    ensures during { EditsShowTrees }
    ensures first { EditsBeforeTheLastKeepTrees }
    ensures settled { SettledEditsShowTrees }
{
    roots_show_their_own();
    edits_are_published();
}

/// The law that a file of a vault tells from its start on all that it gives: no more bytes than are read of
/// it, for which a content has room.
pub fn files_fit_as_contents()
    ensures { (keys : Keys) (at : Path) (bytes : List ℕ) → coming_read (record { at = at; decoding = started keys }) content_limit [] (FileOf bytes) ≡ Some (held_before at [] (limited_reading keys bytes)) }
{
    readings_are_no_longer();
}
