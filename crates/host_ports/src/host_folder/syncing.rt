//! How the machine's folder makes files and directories last.

ghost use Rattle.std.specs.Prelude.{◌≡◌, OnErr, OnOk};
ghost use Rattle.host_ports.specs.Calls.{HeedsBar, HeedsStop, LooksAt};
ghost use Rattle.host_places.specs.Noted.{IsSettled};

use crate::host_folder::HostFolder;
use folder_model::{FPath, Kind};
use host_places::{Cause, Noted, Opened, Pair, Trouble, sync_again, test_names, text_of, unsynced};
use std::alloc::Global;
use std::fs;
use std::io::ErrorKind;

#[tactic(auto, using(host_places::proofs::Dirs::sees_same, host_places::proofs::Dirs::sees_after))]
impl HostFolder {
    pub(super) fn sync_file(&mut self, at: &FPath) -> Result<(), Cause>
        ensures looks { LooksAt at.now self.old.dirs self.new.dirs result }
        ensures bar { HeedsBar Cause.Held self.old self.new result }
        ensures faults { self.new.faults ≡ self.old.faults }
    {
        self.test_barred()?;
        test_names(at)?;
        match self.sync_made(at) {
            Some(synced) => synced,
            None => self.sync_opened(at),
        }
    }

    // Syncs the file that was made last, where it was made there.
    fn sync_made(&self, at: &FPath) -> Option<Result<(), Cause>> {
        let made = self.handles.made_at(at)?;
        Some(sync_open(&made.file))
    }

    // Syncs a file that may be changed, opened for it.
    fn sync_opened(&mut self, at: &FPath) -> Result<(), Cause>
        ensures looks { LooksAt at.now self.old.dirs self.new.dirs result }
        ensures bar { HeedsBar Cause.Held self.old self.new result }
        ensures faults { self.new.faults ≡ self.old.faults }
    {
        let text = self.file_to_change(at)?;
        sync_at(&self.rt, text.as_str())
    }

    pub(super) fn settle_now(&mut self) -> Result<(), Cause>
        ensures settled { OnOk result (IsSettled self.new.dirs) }
        ensures kept { OnErr result (self.new.dirs ≡ self.old.dirs) }
        ensures known { self.new.dirs.known ≡ self.old.dirs.known }
        ensures bar { HeedsStop Cause.Held self.old self.new result }
        ensures faults { self.new.faults ≡ self.old.faults }
    {
        self.test_stopped()?;
        self.test_claims()?;
        self.sync_noted()
    }

    // What was claimed alone must stand in its place.
    fn test_claims(&mut self) -> Result<(), Cause>
        ensures { self.new ≡ self.old }
    {
        self.claims.test(&self.rt, self.alloc, self.base.as_str())
    }

    // Syncs what is noted, and lets it go.
    pub(super) fn sync_noted(&mut self) -> Result<(), Cause>
        ensures settled { OnOk result (IsSettled self.new.dirs) }
        ensures kept { OnErr result (self.new.dirs ≡ self.old.dirs) }
        ensures known { self.new.dirs.known ≡ self.old.dirs.known }
        ensures bar { self.new.barred ≡ self.old.barred }
        ensures faults { self.new.faults ≡ self.old.faults }
    {
        match sync_each(
            &self.rt,
            self.alloc,
            self.base.as_str(),
            &self.noted,
            &mut self.handles.synced,
        ) {
            Ok(()) => {
                self.noted.let_go();
                Ok(())
            }
            Err(trouble) => Err(self.unsynced(trouble)),
        }
    }

    // Syncs the directories that an earlier process may have left changed, before a file comes to its place.
    pub(super) fn sync_due(&mut self) -> Result<(), Cause>
        ensures { self.new ≡ self.old }
    {
        if self.noted.due().is_empty() {
            return Ok(());
        }
        match sync_seen(
            &self.rt,
            self.alloc,
            self.base.as_str(),
            &self.noted,
            &mut self.handles.synced,
        ) {
            Ok(()) => {
                self.noted.let_go_of_due();
                Ok(())
            }
            Err(trouble) => Err(self.unsynced(trouble)),
        }
    }

    // Keeps where and why a sync failed.
    fn unsynced(&mut self, trouble: Trouble) -> Cause
        ensures { self.new ≡ self.old }
    {
        let cause = trouble.cause;
        self.keep_trouble(trouble);
        cause
    }
}

// Syncs a file or directory that is open.
pub fn sync_open(file: &fs::File) -> Result<(), Cause> {
    match sync_again(file) {
        Ok(()) => Ok(()),
        Err(error) => Err(unsynced(&error)),
    }
}

// Syncs what stands at a text.
fn sync_at(rt: &HostRuntime, text: &str) -> Result<(), Cause> {
    sync_open(&fs::open(rt, text)?)
}

// Syncs each directory that is noted, once: those of which entries were seen before those that changed, and of these those that have
// lost an entry to another one last, so that the other one has it before it is gone.
fn sync_each(
    rt: &HostRuntime,
    alloc: Global,
    base: &str,
    noted: &Noted,
    synced: &mut Pair,
) -> Result<(), Trouble> {
    sync_seen_alone(rt, alloc, base, noted, synced)?;
    for dir in noted.changed() {
        if !noted.has_lost(dir) {
            sync_changed(rt, alloc, base, synced, dir)?;
        }
    }
    for dir in noted.changed() {
        if noted.has_lost(dir) {
            sync_changed(rt, alloc, base, synced, dir)?;
        }
    }
    Ok(())
}

fn sync_changed(
    rt: &HostRuntime,
    alloc: Global,
    base: &str,
    synced: &mut Pair,
    dir: &FPath,
) -> Result<(), Trouble> {
    match sync_dir(rt, alloc, base, synced, dir) {
        Ok(()) => Ok(()),
        Err(cause) => Err(Trouble::new(dir, cause)),
    }
}

// Syncs the directories of which entries were seen and that this process hasn't changed.
fn sync_seen_alone(
    rt: &HostRuntime,
    alloc: Global,
    base: &str,
    noted: &Noted,
    synced: &mut Pair,
) -> Result<(), Trouble> {
    for dir in noted.due() {
        if !noted.changed().contains(dir) {
            sync_one_seen(rt, alloc, base, synced, dir)?;
        }
    }
    Ok(())
}

// Syncs the directories of which entries were seen.
fn sync_seen(
    rt: &HostRuntime,
    alloc: Global,
    base: &str,
    noted: &Noted,
    synced: &mut Pair,
) -> Result<(), Trouble> {
    for dir in noted.due() {
        if noted.changed().contains(dir) {
            sync_changed(rt, alloc, base, synced, dir)?;
        } else {
            sync_one_seen(rt, alloc, base, synced, dir)?;
        }
    }
    Ok(())
}

// Syncs a directory that this process hasn't changed. It is passed over where it can't be synced.
fn sync_one_seen(
    rt: &HostRuntime,
    alloc: Global,
    base: &str,
    synced: &mut Pair,
    dir: &FPath,
) -> Result<(), Trouble> {
    match sync_dir(rt, alloc, base, synced, dir) {
        Err(cause) if !is_passed_over(cause) => Err(Trouble::new(dir, cause)),
        _ => Ok(()),
    }
}

// Syncs a directory.
fn sync_dir(
    rt: &HostRuntime,
    alloc: Global,
    base: &str,
    synced: &mut Pair,
    dir: &FPath,
) -> Result<(), Cause> {
    if let Some(opened) = synced.open_at(dir) {
        return sync_open(&opened.file);
    }
    let opened = open_dir(rt, alloc, base, dir)?;
    let answer = sync_open(&opened.file);
    synced.keep(opened);
    answer
}

// Opens what stands there only if it is a directory.
fn open_dir(rt: &HostRuntime, alloc: Global, base: &str, dir: &FPath) -> Result<Opened, Cause> {
    let mut text = text_of(alloc, base, dir.parts())?;
    text.push_str("/.")?;
    Opened::open(rt, dir, text.as_str())
}

// Whether it is passed over that a directory which this process hasn't changed can't be synced for this cause, or that a file can't be given
// a mode: there is no right to it, or the file system has no such call.
pub fn is_passed_over(cause: Cause) -> bool {
    matches!(
        cause,
        Cause::Machine(
            ErrorKind::PermissionDenied
                | ErrorKind::InvalidInput
                | ErrorKind::ReadOnlyFilesystem
                | ErrorKind::Unsupported,
            _
        ) | Cause::Unsynced(
            ErrorKind::PermissionDenied
                | ErrorKind::InvalidInput
                | ErrorKind::ReadOnlyFilesystem
                | ErrorKind::Unsupported,
            _
        )
    )
}
