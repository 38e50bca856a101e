//! How the machine's folder moves files and directories.

ghost use Rattle.std.specs.Prelude.{◌≡◌, ◌↔◌, ◌≢◌, ◌⊎◌, true, OnOk, IsTrue, None};
ghost use Rattle.folder_spec.specs.Path.{parent};
ghost use Rattle.folder_spec.specs.declared.Kind.TheVariants.{File, Missing};
ghost use Rattle.host_ports.specs.Calls.{HeedsBar};
ghost use Rattle.host_places.specs.Noted.{IsJust, IsSettled, Sees, has};
ghost use Rattle.host_places.specs.Places.{names_entries};

use crate::host_folder::HostFolder;
use crate::host_folder::syncing::{is_passed_over, sync_open};
use folder_model::{FPath, Kind};
use host_places::{Cause, Made, Node, Place, Trouble};
use std::alloc::AllocError;
use std::fs;
use std::fs::Permissions;
use std::os::unix::fs::PermissionsExt;

#[tactic(auto, using(host_places::proofs::Dirs::sees_same, host_places::proofs::Dirs::sees_after))]
impl HostFolder {
    // Moves what may move, unless another program has put something into the place meanwhile. Before a directory moves, all that is noted
    // is synced.
    pub(super) fn rename_now(&mut self, old: &FPath, new: &FPath) -> Result<(), Cause>
        ensures names { OnOk result (IsTrue (names_entries old.now) × IsTrue (names_entries new.now)) }
        ensures changed { OnOk result (IsTrue (has self.new.dirs.changed (parent old.now)) × IsTrue (has self.new.dirs.changed (parent new.now))) }
        ensures sees { Sees self.old.dirs self.new.dirs ⊎ IsJust self.new.dirs (parent old.now) (parent new.now) }
        ensures bar { HeedsBar Cause.Held self.old self.new result }
        ensures faults { self.new.faults ≡ self.old.faults }
    {
        self.test_barred()?;
        let from = self.look(old)?;
        self.move_from(old, new, &from)
    }

    // Moves what stands at one place to a path, at which it looks first.
    fn move_from(&mut self, old: &FPath, new: &FPath, from: &Place) -> Result<(), Cause>
        ensures names { OnOk result (IsTrue (names_entries new.now)) }
        ensures changed { OnOk result (IsTrue (has self.new.dirs.changed (parent old.now)) × IsTrue (has self.new.dirs.changed (parent new.now))) }
        ensures sees { Sees self.old.dirs self.new.dirs ⊎ IsJust self.new.dirs (parent old.now) (parent new.now) }
        ensures bar { self.new.barred ≡ self.old.barred }
        ensures faults { self.new.faults ≡ self.old.faults }
    {
        let to = self.look(new)?;
        self.move_there(old, new, from, &to)
    }

    // Moves what may move from one place to another.
    fn move_there(
        &mut self,
        old: &FPath,
        new: &FPath,
        from: &Place,
        to: &Place,
    ) -> Result<(), Cause>
        ensures changed { OnOk result (IsTrue (has self.new.dirs.changed (parent old.now)) × IsTrue (has self.new.dirs.changed (parent new.now))) }
        ensures sees { Sees self.old.dirs self.new.dirs ⊎ IsJust self.new.dirs (parent old.now) (parent new.now) }
        ensures bar { self.new.barred ≡ self.old.barred }
        ensures faults { self.new.faults ≡ self.old.faults }
    {
        self.test_move(old, new, from, to)?;
        if from.kind == Some(Kind::Dir) {
            self.move_dir(old, new, from, to)
        } else {
            self.move_file(old, new, from, to)
        }
    }

    // What stands at one place must be something that may move to the other, where nothing has come since.
    fn test_move(&mut self, old: &FPath, new: &FPath, from: &Place, to: &Place) -> Result<(), Cause>
        ensures { self.new ≡ self.old }
    {
        if old.depth() == 0 || new.starts_with(old) || !may_move(from.kind, to.kind) {
            return Err(Cause::InTheWay);
        }
        if has_come(self.kinds.kind_at(new), to.kind) {
            return Err(Cause::Replaced);
        }
        Ok(())
    }

    // Notes that the directories above two paths change.
    fn note_both(&mut self, old: &FPath, new: &FPath) -> Result<(), AllocError>
        ensures changed { OnOk result (IsTrue (has self.new.dirs.changed (parent old.now)) × IsTrue (has self.new.dirs.changed (parent new.now))) }
        ensures sees { Sees self.old.dirs self.new.dirs }
        ensures just { IsSettled self.old.dirs → IsJust self.new.dirs (parent old.now) (parent new.now) }
        ensures bar { self.new.barred ≡ self.old.barred }
        ensures faults { self.new.faults ≡ self.old.faults }
    {
        self.note_above(old)?;
        self.note_above(new)?;
        self.note_loss(old, new)
    }

    // Notes that the directory above one path loses an entry to that above another, if that is another one.
    fn note_loss(&mut self, old: &FPath, new: &FPath) -> Result<(), AllocError>
        ensures { self.new ≡ self.old }
    {
        let (from, to) = (old.parent()?, new.parent()?);
        if from.is(&to) {
            Ok(())
        } else {
            self.noted.lose(from)
        }
    }

    // What may be moved from one path to another: no claim of either is missing.
    fn may_move_there(&mut self, old: &FPath, new: &FPath) -> Result<(), Cause>
        ensures { self.new ≡ self.old }
    {
        self.may_change(old)?;
        self.may_change(new)
    }

    fn move_file(&mut self, old: &FPath, new: &FPath, from: &Place, to: &Place) -> Result<(), Cause>
        ensures changed { OnOk result (IsTrue (has self.new.dirs.changed (parent old.now)) × IsTrue (has self.new.dirs.changed (parent new.now))) }
        ensures sees { Sees self.old.dirs self.new.dirs }
        ensures bar { self.new.barred ≡ self.old.barred }
        ensures faults { self.new.faults ≡ self.old.faults }
    {
        self.test_made(old, from, to)?;
        self.may_change(new)?;
        self.sync_due()?;
        self.note_both(old, new)?;
        self.rename_there(old, new, from, to)?;
        self.life.count_placed();
        Ok(())
    }

    // What is moved must be the file that was made there, if one was, or no claim of it may be missing.
    fn test_made(&mut self, old: &FPath, from: &Place, to: &Place) -> Result<(), Cause>
        ensures { self.new ≡ self.old }
    {
        match self.handles.made_at(old) {
            Some(made) => fit(made, from, to),
            None => self.may_change(old),
        }
    }

    fn move_dir(&mut self, old: &FPath, new: &FPath, from: &Place, to: &Place) -> Result<(), Cause>
        ensures changed { OnOk result (IsTrue (has self.new.dirs.changed (parent old.now)) × IsTrue (has self.new.dirs.changed (parent new.now))) }
        ensures sees { Sees self.old.dirs self.new.dirs ⊎ IsJust self.new.dirs (parent old.now) (parent new.now) }
        ensures bar { self.new.barred ≡ self.old.barred }
        ensures faults { self.new.faults ≡ self.old.faults }
    {
        self.sync_noted()?;
        self.may_move_there(old, new)?;
        self.test_watched(old)?;
        let below = self.noted.known_below(old)?;
        self.handles.close_below(old);
        self.move_held(old, new, from, to)?;
        self.noted.unknow(below.as_slice());
        Ok(())
    }

    // Before what stands at a claimed path is moved away, tests that no directory of which entries were listed has changed since.
    fn test_watched(&mut self, old: &FPath) -> Result<(), Cause>
        ensures { self.new ≡ self.old }
    {
        if !self.claims.are_at(old) {
            return self.let_go_of_watched(old);
        }
        match self.watched.changed(&self.rt, self.base.as_str())? {
            Some(at) => {
                self.keep_trouble(Trouble::new(&at, Cause::Changed));
                Err(Cause::Changed)
            }
            None => self.let_go_of_watched(old),
        }
    }

    fn let_go_of_watched(&mut self, old: &FPath) -> Result<(), Cause>
        ensures { self.new ≡ self.old }
    {
        self.watched.forget_below(old)?;
        Ok(())
    }

    // Moves a directory, which is held first where it comes to a claimed path.
    fn move_held(&mut self, old: &FPath, new: &FPath, from: &Place, to: &Place) -> Result<(), Cause>
        ensures changed { OnOk result (IsTrue (has self.new.dirs.changed (parent old.now)) × IsTrue (has self.new.dirs.changed (parent new.now))) }
        ensures sees { Sees self.old.dirs self.new.dirs }
        ensures just { IsSettled self.old.dirs → IsJust self.new.dirs (parent old.now) (parent new.now) }
        ensures bar { self.new.barred ≡ self.old.barred }
        ensures faults { self.new.faults ≡ self.old.faults }
    {
        self.note_both(old, new)?;
        self.claims.hold_moved(&self.rt, from.text.as_str(), new)?;
        self.rename_there(old, new, from, to)
    }

    // Moves what stands at one text to another, and closes what was open at and below them.
    fn rename_there(
        &mut self,
        old: &FPath,
        new: &FPath,
        from: &Place,
        to: &Place,
    ) -> Result<(), Cause>
        ensures { self.new ≡ self.old }
    {
        fs::rename(&self.rt, from.text.as_str(), to.text.as_str())?;
        self.claims.end_below(old);
        self.forget_below(old, None);
        self.keep_kind(old, Kind::Missing);
        self.forget_below(new, from.kind);
        Ok(())
    }
}

// The file that was made must be the one that stands there, and takes on the mode of the one that it replaces.
fn fit(made: &Made, from: &Place, to: &Place) -> Result<(), Cause> {
    if from.metadata.as_ref().map(Node::of) != Some(made.node) {
        return Err(Cause::Replaced);
    }
    if let Some(replaced) = &to.metadata {
        let permissions = replaced.permissions();
        if permissions.mode() != made.mode {
            return take_mode(&made.file, permissions);
        }
    }
    Ok(())
}

// Gives a file this mode and syncs it again. It keeps the one that it was made with where the file system takes no other.
fn take_mode(file: &fs::File, permissions: Permissions) -> Result<(), Cause> {
    match file.set_permissions(permissions) {
        Ok(()) => sync_open(file),
        Err(error) => {
            let cause = Cause::from(error);
            if is_passed_over(cause) {
                Ok(())
            } else {
                Err(cause)
            }
        }
    }
}

// Whether something stands at a place of which it was kept that nothing does.
fn has_come(kept: Option<Kind>, stands: Option<Kind>) -> bool
    ensures { IsTrue result ↔ (kept ≡ Some Missing) × (stands ≢ Some Missing) }
{
    match (kept, stands) {
        (Some(Kind::Missing), Some(Kind::Missing)) => false,
        (Some(Kind::Missing), _) => true,
        _ => false,
    }
}

// Whether what stands at one place may move to another: onto nothing, or a file onto a file.
fn may_move(from: Option<Kind>, to: Option<Kind>) -> bool
    ensures { IsTrue result ↔ (from ≢ None) × (from ≢ Some Missing) × ((to ≡ Some Missing) ⊎ ((from ≡ Some File) × (to ≡ Some File))) }
{
    match (from, to) {
        (Some(Kind::Missing), _) => false,
        (Some(_), Some(Kind::Missing)) => true,
        (Some(Kind::File), Some(Kind::File)) => true,
        _ => false,
    }
}
