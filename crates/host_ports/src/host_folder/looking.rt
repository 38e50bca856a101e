//! What the machine's folder looks at and reads.

ghost use Rattle.std.specs.Prelude.{◌≡◌, ◌≤◌, ◌≢◌, ◌⊎◌, IfErr, IfOk, IfSome, OnOk, IsTrue, IsSome, None, length};
ghost use Rattle.std.specs.Cmp.Lexicographic.{slice_cmp};
ghost use Rattle.std.specs.List.Sorted.{IsSortedByKey};
ghost use Rattle.std.specs.Ordering.{nat_cmp};
ghost use Rattle.folder_spec.specs.Listing.{Item};
ghost use Rattle.folder_spec.specs.Path.{parent};
ghost use Rattle.folder_spec.specs.declared.Kind.TheVariants.{Missing};
ghost use Rattle.host_places.specs.Causes.{IsFailure};
ghost use Rattle.host_ports.specs.Calls.{HeedsBlind, LooksAt};
ghost use Rattle.host_places.specs.Noted.{has};

use crate::host_folder::HostFolder;
use folder_model::{Entry, FPath, Kind};
use host_places::{Cause, Opened, Place, entries_of, fill_from, look, reach, stamp_at, test_names};

#[tactic(auto, using(host_places::proofs::Dirs::sees_same, host_places::proofs::Dirs::sees_after))]
impl HostFolder {
    // Looks at a path. What has come to stand at a claimed path at or above it is claimed before it is looked at.
    pub(super) fn look(&mut self, at: &FPath) -> Result<Place, Cause>
        ensures looks { LooksAt at.now self.old.dirs self.new.dirs result }
        ensures known { IfOk result (λ place. IsSome place.kind → IsTrue (has self.new.dirs.known (parent at.now))) }
        ensures bar { self.new.barred ≡ self.old.barred }
        ensures faults { self.new.faults ≡ self.old.faults }
    {
        let lacked = self.claims.lack(at);
        if lacked {
            self.take_on(at)?;
        }
        let place = self.look_at(at)?;
        if lacked && self.claims.lack(at) && stands(place.kind) {
            self.take_on(at)?;
            self.look_at(at)
        } else {
            Ok(place)
        }
    }

    fn take_on(&mut self, at: &FPath) -> Result<(), Cause>
        ensures { self.new ≡ self.old }
    {
        self.claims
            .take_on(&self.rt, self.alloc, self.base.as_str(), at)
    }

    fn look_at(&mut self, at: &FPath) -> Result<Place, Cause>
        ensures looks { LooksAt at.now self.old.dirs self.new.dirs result }
        ensures known { IfOk result (λ place. IsSome place.kind → IsTrue (has self.new.dirs.known (parent at.now))) }
        ensures bar { self.new.barred ≡ self.old.barred }
        ensures faults { self.new.faults ≡ self.old.faults }
    {
        look(
            &self.rt,
            self.alloc,
            self.base.as_str(),
            &mut self.noted,
            at,
        )
    }

    // The text of a path at which this stands.
    pub(super) fn place_of(&mut self, at: &FPath, kind: Kind) -> Result<String, Cause>
        ensures looks { LooksAt at.now self.old.dirs self.new.dirs result }
        ensures known { OnOk result (IsTrue (has self.new.dirs.known (parent at.now))) }
        ensures bar { self.new.barred ≡ self.old.barred }
        ensures faults { self.new.faults ≡ self.old.faults }
    {
        let place = self.look(at)?;
        if place.kind == Some(kind) {
            Ok(place.text)
        } else {
            Err(Cause::InTheWay)
        }
    }

    // The text of a path above which a directory stands.
    pub(super) fn room_at(&mut self, at: &FPath) -> Result<String, Cause>
        ensures looks { LooksAt at.now self.old.dirs self.new.dirs result }
        ensures known { OnOk result (IsTrue (has self.new.dirs.known (parent at.now))) }
        ensures bar { self.new.barred ≡ self.old.barred }
        ensures faults { self.new.faults ≡ self.old.faults }
    {
        match reach(
            &self.rt,
            self.alloc,
            self.base.as_str(),
            &mut self.noted,
            at,
        )? {
            Some(text) => Ok(text),
            None => Err(Cause::InTheWay),
        }
    }

    pub(super) fn kind_of(&mut self, at: &FPath) -> Result<Kind, Cause>
        ensures looks { LooksAt at.now self.old.dirs self.new.dirs result }
        ensures known { IfOk result (λ kind. kind ≢ Missing → IsTrue (has self.new.dirs.known (parent at.now))) }
        ensures bar { HeedsBlind Cause.Held self.old self.new result }
        ensures faults { self.new.faults ≡ self.old.faults }
    {
        self.test_blind()?;
        if self.noted.knows_above(at)? {
            if let Some(kind) = self.kinds.kind_at(at) {
                return Ok(kind);
            }
        }
        let kind = self.look(at)?.kind.unwrap_or(Kind::Missing);
        self.keep_kind(at, kind);
        Ok(kind)
    }

    // Keeps what stands at a path where no other run changes it, as far as there is memory for it.
    pub(super) fn keep_kind(&mut self, at: &FPath, kind: Kind)
        ensures { self.new ≡ self.old }
    {
        if self.claims.hold(at) {
            let _ = self.kinds.keep(at, kind);
        }
    }

    // Keeps what stands in a directory where no other run changes it.
    fn keep_entries(&mut self, at: &FPath, entries: &[Entry])
        ensures { self.new ≡ self.old }
    {
        if self.claims.hold(at) {
            self.kinds.keep_all(at, entries);
        }
    }

    // Forgets what was open and what stood at and below a path, where something else comes to stand, and keeps what does, if that is known
    // and what stands in its directory is kept.
    pub(super) fn forget_below(&mut self, at: &FPath, stands: Option<Kind>)
        ensures { self.new ≡ self.old }
    {
        self.handles.close_below(at);
        self.kinds.forget_below(at, stands);
    }

    pub(super) fn entries(&mut self, at: &FPath) -> Result<Vec<Entry>, Cause>
        ensures looks { LooksAt at.now self.old.dirs self.new.dirs result }
        ensures sorted { IfOk result (λ entries. IsSortedByKey (λ (entry : Item). entry.name) (slice_cmp nat_cmp) entries.items) }
        ensures known { OnOk result (IsTrue (has self.new.dirs.known at.now)) }
        ensures bar { HeedsBlind Cause.Held self.old self.new result }
        ensures faults { self.new.faults ≡ self.old.faults }
    {
        self.test_blind()?;
        let text = self.place_of(at, Kind::Dir)?;
        self.noted.see(at)?;
        self.watch(at, text.as_str())?;
        let entries = entries_of(&self.rt, self.alloc, text.as_str())?;
        self.keep_entries(at, entries.as_slice());
        Ok(entries)
    }

    // Keeps when a directory at or below a claimed path changed last, before it is listed.
    fn watch(&mut self, at: &FPath, text: &str) -> Result<(), Cause>
        ensures { self.new ≡ self.old }
    {
        if self.claims.cover(at) {
            if let Some(stamp) = stamp_at(&self.rt, text)? {
                self.watched.keep(at, stamp)?;
            }
        }
        Ok(())
    }

    pub(super) fn bytes(&mut self, at: &FPath, start: u64, out: &mut [u8]) -> Result<usize, Cause>
        ensures looks { LooksAt at.now self.old.dirs self.new.dirs result }
        ensures within { IfOk result (λ n. n ≤ length out.old) }
        ensures unread { IfErr result (λ cause. IsFailure cause ⊎ (out.new ≡ out.old)) }
        ensures bar { HeedsBlind Cause.Held self.old self.new result }
        ensures faults { self.new.faults ≡ self.old.faults }
    {
        self.test_blind()?;
        test_names(at)?;
        match self.open_bytes(at, start, out) {
            Some(answer) => answer,
            None => self.opened_bytes(at, start, out),
        }
    }

    // Reads from the file that is open at a path, where one is.
    fn open_bytes(&mut self, at: &FPath, start: u64, out: &mut [u8]) -> Option<Result<usize, Cause>>
        ensures same { self.new ≡ self.old }
        ensures within { IfSome result (λ answer. IfOk answer (λ n. n ≤ length out.old)) }
        ensures failed { IfSome result (λ answer. IfErr answer IsFailure) }
        ensures unread { result ≡ None → out.new ≡ out.old }
    {
        let opened = self.handles.read.open_at(at)?;
        Some(fill_from(&opened.file, start, out))
    }

    // Opens a file, reads from it and keeps it open.
    fn opened_bytes(&mut self, at: &FPath, start: u64, out: &mut [u8]) -> Result<usize, Cause>
        ensures looks { LooksAt at.now self.old.dirs self.new.dirs result }
        ensures within { IfOk result (λ n. n ≤ length out.old) }
        ensures unread { IfErr result (λ cause. IsFailure cause ⊎ (out.new ≡ out.old)) }
        ensures bar { self.new.barred ≡ self.old.barred }
        ensures faults { self.new.faults ≡ self.old.faults }
    {
        let opened = self.opened(at)?;
        let answer = fill_from(&opened.file, start, out);
        self.handles.read.keep(opened);
        answer
    }

    // A file, opened to be read.
    fn opened(&mut self, at: &FPath) -> Result<Opened, Cause>
        ensures looks { LooksAt at.now self.old.dirs self.new.dirs result }
        ensures bar { self.new.barred ≡ self.old.barred }
        ensures faults { self.new.faults ≡ self.old.faults }
    {
        let text = self.place_to_read(at)?;
        Opened::open(&self.rt, at, text.as_str())
    }

    // The text of a file to be read. It isn't looked at where no directory, no link and nothing that could hold up who opens it can stand there.
    fn place_to_read(&mut self, at: &FPath) -> Result<String, Cause>
        ensures looks { LooksAt at.now self.old.dirs self.new.dirs result }
        ensures bar { self.new.barred ≡ self.old.barred }
        ensures faults { self.new.faults ≡ self.old.faults }
    {
        if self.kinds.can_be_read(at) {
            self.room_at(at)
        } else {
            self.place_of(at, Kind::File)
        }
    }
}

// Whether something was found.
fn stands(kind: Option<Kind>) -> bool {
    match kind {
        None | Some(Kind::Missing) => false,
        Some(_) => true,
    }
}
