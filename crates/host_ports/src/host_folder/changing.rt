//! What the machine's folder makes, writes and removes.

ghost use Rattle.std.specs.Prelude.{◌≡◌, ◌⊎◌, true, OnOk, IsTrue};
ghost use Rattle.folder_spec.specs.Path.{Path, parent};
ghost use Rattle.host_ports.specs.Calls.{ChangesAt, HeedsBar, LooksAt};
ghost use Rattle.host_places.specs.Noted.{Sees, SeesBut, has, same};
ghost use Rattle.host_places.specs.Places.{names_entries};

use crate::host_folder::HostFolder;
use folder_model::{FPath, Kind};
use host_places::{Cause, Made, Node, put, test_names};
use std::alloc::AllocError;
use std::fs::{DirBuilder, OpenOptions};
use std::os::unix::fs::{DirBuilderExt, OpenOptionsExt, PermissionsExt};
use std::{fs, io};

// Who may use what is made: its owner alone.
const FILE_MODE: u32 = 0o600;

const DIRECTORY_MODE: u32 = 0o700;

// Makes a directory.
fn create_dir(rt: &HostRuntime, text: &str) -> io::Result<()> {
    let mut builder = DirBuilder::new();
    builder.mode(DIRECTORY_MODE);
    builder.create(rt, text)
}

// Makes a file, and opens it at its end.
fn create_file(rt: &HostRuntime, text: &str) -> io::Result<fs::File> {
    let mut options = OpenOptions::new();
    options.append(true).create_new(true).mode(FILE_MODE);
    options.open(rt, text)
}

// Opens a file at its end.
fn open_to_append(rt: &HostRuntime, text: &str) -> Result<fs::File, Cause> {
    let mut options = OpenOptions::new();
    options.append(true);
    Ok(options.open(rt, text)?)
}

#[tactic(auto, using(host_places::proofs::Dirs::sees_same, host_places::proofs::Dirs::sees_after))]
impl HostFolder {
    // Notes that the directory above a path changes.
    pub(super) fn note_above(&mut self, at: &FPath) -> Result<(), AllocError>
        ensures changed { OnOk result (IsTrue (has self.new.dirs.changed (parent at.now))) }
        ensures keeps { (dir : Path) → IsTrue (has self.old.dirs.changed dir) → IsTrue (has self.new.dirs.changed dir) }
        ensures just { (dir : Path) → IsTrue (has self.new.dirs.changed dir) → IsTrue (has self.old.dirs.changed dir) ⊎ IsTrue (same (parent at.now) dir) }
        ensures seen { self.new.dirs.seen ≡ self.old.dirs.seen }
        ensures sees { Sees self.old.dirs self.new.dirs }
        ensures bar { self.new.barred ≡ self.old.barred }
        ensures faults { self.new.faults ≡ self.old.faults }
    {
        let above = at.parent()?;
        self.watched.forget(&above);
        self.noted.change(above)
    }

    // The text of a path at which a change may be made, where a directory stands above it, which is noted.
    fn make_room(&mut self, at: &FPath) -> Result<String, Cause>
        ensures changes { ChangesAt at.now self.old.dirs self.new.dirs result }
        ensures bar { HeedsBar Cause.Held self.old self.new result }
        ensures faults { self.new.faults ≡ self.old.faults }
    {
        self.may_change(at)?;
        let text = self.room_at(at)?;
        self.note_above(at)?;
        Ok(text)
    }

    // The text of a file that may be removed. The directory above it is noted.
    fn take_file(&mut self, at: &FPath) -> Result<String, Cause>
        ensures changes { ChangesAt at.now self.old.dirs self.new.dirs result }
        ensures bar { HeedsBar Cause.Held self.old self.new result }
        ensures faults { self.new.faults ≡ self.old.faults }
    {
        let text = self.file_to_change(at)?;
        self.note_above(at)?;
        Ok(text)
    }

    // The text of a file that may be changed.
    pub(super) fn file_to_change(&mut self, at: &FPath) -> Result<String, Cause>
        ensures looks { LooksAt at.now self.old.dirs self.new.dirs result }
        ensures bar { HeedsBar Cause.Held self.old self.new result }
        ensures faults { self.new.faults ≡ self.old.faults }
    {
        self.may_change(at)?;
        self.place_of(at, Kind::File)
    }

    pub(super) fn add_dir(&mut self, at: &FPath) -> Result<(), Cause>
        ensures changes { ChangesAt at.now self.old.dirs self.new.dirs result }
        ensures made { OnOk result (IsTrue (has self.new.dirs.changed at.now)) }
        ensures bar { HeedsBar Cause.Held self.old self.new result }
        ensures faults { self.new.faults ≡ self.old.faults }
    {
        let text = self.make_room(at)?;
        let made = at.copy()?;
        self.forget_below(at, None);
        create_dir(&self.rt, text.as_str())?;
        self.noted.make(made)?;
        self.keep_new_dir(at)
    }

    // Holds a directory that was just made, if it is a claimed one, and keeps that nothing stands in it. Where it is a claimed one itself,
    // another run may have held it before this one did.
    fn keep_new_dir(&mut self, at: &FPath) -> Result<(), Cause>
        ensures { self.new ≡ self.old }
    {
        self.claims
            .hold_made(&self.rt, self.alloc, self.base.as_str(), at)?;
        self.kinds.learn(at, Kind::Dir);
        if self.claims.hold_above(at) {
            self.kinds.keep_all(at, &[]);
        }
        Ok(())
    }

    pub(super) fn add_file(&mut self, at: &FPath) -> Result<(), Cause>
        ensures changes { ChangesAt at.now self.old.dirs self.new.dirs result }
        ensures bar { HeedsBar Cause.Held self.old self.new result }
        ensures faults { self.new.faults ≡ self.old.faults }
    {
        let text = self.make_room(at)?;
        self.create_at(at, text.as_str())
    }

    // Makes a file at a path with this text, and keeps it open.
    fn create_at(&mut self, at: &FPath, text: &str) -> Result<(), Cause>
        ensures { self.new ≡ self.old }
    {
        let copy = at.copy()?;
        self.forget_below(at, None);
        let file = create_file(&self.rt, text)?;
        self.kinds.learn(at, Kind::File);
        self.keep_made(copy, file);
        Ok(())
    }

    // Keeps a file open that was just made.
    fn keep_made(&mut self, at: FPath, file: fs::File)
        ensures { self.new ≡ self.old }
    {
        if let Ok(metadata) = file.metadata() {
            self.handles.keep_made(Made {
                at,
                file,
                node: Node::of(&metadata),
                mode: metadata.permissions().mode(),
            });
        }
    }

    pub(super) fn grow(&mut self, at: &FPath, piece: &[u8]) -> Result<(), Cause>
        ensures looks { LooksAt at.now self.old.dirs self.new.dirs result }
        ensures bar { HeedsBar Cause.Held self.old self.new result }
        ensures faults { self.new.faults ≡ self.old.faults }
    {
        self.test_barred()?;
        test_names(at)?;
        match self.put_made(at, piece) {
            Some(answer) => answer,
            None => put(&mut self.opened_to_grow(at)?, piece),
        }
    }

    // Writes to the file that was made last, where it was made there.
    fn put_made(&self, at: &FPath, piece: &[u8]) -> Option<Result<(), Cause>> {
        let made = self.handles.made_at(at)?;
        Some(put(&mut &made.file, piece))
    }

    // A file that may be changed, opened at its end.
    fn opened_to_grow(&mut self, at: &FPath) -> Result<fs::File, Cause>
        ensures looks { LooksAt at.now self.old.dirs self.new.dirs result }
        ensures bar { HeedsBar Cause.Held self.old self.new result }
        ensures faults { self.new.faults ≡ self.old.faults }
    {
        let text = self.file_to_change(at)?;
        open_to_append(&self.rt, text.as_str())
    }

    pub(super) fn remove_file_now(&mut self, at: &FPath) -> Result<(), Cause>
        ensures changes { ChangesAt at.now self.old.dirs self.new.dirs result }
        ensures bar { HeedsBar Cause.Held self.old self.new result }
        ensures faults { self.new.faults ≡ self.old.faults }
    {
        let text = self.take_file(at)?;
        self.handles.close_below(at);
        fs::remove_file(&self.rt, text.as_str())?;
        self.forget_below(at, Some(Kind::Missing));
        Ok(())
    }

    #[tactic(auto, using(host_places::proofs::Dirs::sees_but, host_places::proofs::Dirs::sees_but_after, host_places::proofs::Dirs::below_apart))]
    pub(super) fn remove_dir_now(&mut self, at: &FPath) -> Result<(), Cause>
        ensures names { OnOk result (IsTrue (names_entries at.now)) }
        ensures changed { OnOk result (IsTrue (has self.new.dirs.changed (parent at.now))) }
        ensures sees { SeesBut at.now self.old.dirs self.new.dirs }
        ensures bar { HeedsBar Cause.Held self.old self.new result }
        ensures faults { self.new.faults ≡ self.old.faults }
    {
        self.test_barred()?;
        if at.depth() == 0 {
            return Err(Cause::InTheWay);
        }
        let text = self.make_room(at)?;
        fs::remove_dir(&self.rt, text.as_str())?;
        self.claims.end_below(at);
        self.watched.forget(at);
        self.forget_below(at, Some(Kind::Missing));
        self.noted.forget(at);
        Ok(())
    }
}
