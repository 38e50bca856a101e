//! The directories that a settle has to sync.

ghost use Rattle.std.specs.Prelude.{◌≡◌, ◌⊎◌, [], IfOk, IsFalse, IsTrue, OnErr, OnOk};
ghost use Rattle.folder_spec.specs.Path.{Path, parent};
ghost use Rattle.host_places.specs.Noted.{HasMore, Sees, SeesBut, has, same};
ghost use Rattle.host_places.specs.Places.{names_entries};

use crate::causes::Cause;
use crate::places::{test_last_name, test_names, up_to};
use folder_model::FPath;
use std::alloc::{AllocError, Global};
use std::collections::BTreeSet;
use std::marker::Model;
use std::ops::Bound;

// How many of the known directories are compared first, before they are searched.
const MOST: usize = 8;

/// The directories of which this process has seen entries or that it made, and those of them that still have to be synced: since it saw
/// what an earlier process may have left unsynced there, or since it made them or changed their entries. Of the first kind those are due
/// that weren't synced yet; of the second some have lost an entry to another directory.
#[derive(Drop)]
pub struct Noted {
    alloc: Global,
    known: BTreeSet<FPath, Global>,
    lately: Vec<FPath>,
    seen: BTreeSet<FPath, Global>,
    due: BTreeSet<FPath, Global>,
    changed: BTreeSet<FPath, Global>,
    lost: BTreeSet<FPath, Global>,
}

impl Model for Noted {
    ghost use Rattle.host_places.specs.Noted.{AreAmong, AreNamed, Dirs};

    ghost Value = { Dirs };

    ghost view = { λ n. record { known = n.known.keys; seen = n.seen.keys; changed = n.changed.keys } };

    ghost invariant = { λ n. AreAmong n.lately.items n.known.keys × AreNamed n.lately.items };
}

impl Noted {
    pub fn new(alloc: Global) -> Noted
        ensures { result ≡ record { known = []; seen = []; changed = [] } }
    {
        Noted {
            alloc,
            known: BTreeSet::new(alloc),
            lately: Vec::new(alloc),
            seen: BTreeSet::new(alloc),
            due: BTreeSet::new(alloc),
            changed: BTreeSet::new(alloc),
            lost: BTreeSet::new(alloc),
        }
    }

    /// Whether an entry of the directory was seen, and nothing at it or above it was moved or removed since.
    pub fn knows(&self, dir: &FPath) -> bool
        ensures { result ≡ has self.now.known dir.now }
    {
        self.known.contains(dir)
    }

    /// Whether it knows the directory above a path, each part of which must name an entry. Those above the last one were tested before where
    /// it was asked for that directory lately.
    pub fn knows_above(&mut self, at: &FPath) -> Result<bool, Cause>
        ensures names { OnOk result (IsTrue (names_entries at.now)) }
        ensures known { IfOk result (λ known. known ≡ has self.old.known (parent at.now)) }
        ensures same { self.new ≡ self.old }
    {
        if self.knew_above(at) {
            test_last_name(at)?;
            return Ok(true);
        }
        test_names(at)?;
        let above = at.parent()?;
        let known = self.knows(&above);
        if known {
            self.remember(above);
        }
        Ok(known)
    }

    // Whether the directory above a path is one of those that it was asked for last.
    fn knew_above(&self, at: &FPath) -> bool
        ensures known { IsTrue result → IsTrue (has self.now.known (parent at.now)) }
        ensures named { IsTrue result → IsTrue (names_entries (parent at.now)) }
    {
        let depth = at.depth().saturating_sub(1);
        for dir in self.lately.as_slice() {
            if dir.depth() == depth && at.starts_with(dir) {
                return true;
            }
        }
        false
    }

    /// Whether it knows the directory, and was asked for it lately. It takes no search.
    pub fn knew(&self, dir: &FPath) -> bool
        ensures { IsTrue result → IsTrue (has self.now.known dir.now) }
    {
        for known in self.lately.as_slice() {
            if known.is(dir) {
                return true;
            }
        }
        false
    }

    // Has a known directory compared first from here on, if there is memory for it.
    fn remember(&mut self, dir: FPath)
        requires known { IsTrue (has self.old.known dir) }
        requires named { IsTrue (names_entries dir) }
        ensures { self.new ≡ self.old }
    {
        self.lately.truncate(MOST - 1);
        let _ = self.lately.insert(0, dir);
    }

    /// Notes a directory of which an entry is seen, if it is the first one.
    #[tactic(auto, using(crate::proofs::Dirs::sees_same, crate::proofs::Dirs::sees_after))]
    pub fn see(&mut self, dir: &FPath) -> Result<(), AllocError>
        ensures sees { Sees self.old self.new }
        ensures known { OnOk result (IsTrue (has self.new.known dir.now)) }
        ensures changed { self.new.changed ≡ self.old.changed }
    {
        if self.known.contains(dir) {
            return Ok(());
        }
        add(&mut self.due, dir)?;
        add(&mut self.seen, dir)?;
        add(&mut self.known, dir)?;
        Ok(())
    }

    /// Notes the directories above a directory, as many as were looked into, and the directory itself where it was reached.
    #[tactic(auto, using(crate::proofs::Dirs::sees_same, crate::proofs::Dirs::sees_after))]
    pub fn see_down(&mut self, dir: &FPath, looked: usize, reached: bool) -> Result<(), AllocError>
        ensures sees { Sees self.old self.new }
        ensures known { OnOk result (IsTrue reached → IsTrue (has self.new.known dir.now)) }
        ensures changed { self.new.changed ≡ self.old.changed }
    {
        self.see_above(dir, looked)?;
        if reached {
            self.see(dir)?;
        }
        Ok(())
    }

    #[tactic(auto, using(crate::proofs::Dirs::sees_same, crate::proofs::Dirs::sees_after))]
    fn see_above(&mut self, dir: &FPath, looked: usize) -> Result<(), AllocError>
        ensures sees { Sees self.old self.new }
        ensures changed { self.new.changed ≡ self.old.changed }
    {
        let mut above = FPath::base(self.alloc);
        for part in up_to(dir.parts(), looked) {
            self.see(&above)?;
            above = above.child(part.as_str())?;
        }
        Ok(())
    }

    /// Notes a directory whose entries change.
    #[tactic(auto, using(crate::proofs::Dirs::sees_same, crate::proofs::Dirs::sees_after))]
    pub fn change(&mut self, dir: FPath) -> Result<(), AllocError>
        ensures sees { Sees self.old self.new }
        ensures changed { OnOk result (IsTrue (has self.new.changed dir)) }
        ensures keeps { (at : Path) → IsTrue (has self.old.changed at) → IsTrue (has self.new.changed at) }
        ensures just { (at : Path) → IsTrue (has self.new.changed at) → IsTrue (has self.old.changed at) ⊎ IsTrue (same dir at) }
        ensures seen { self.new.seen ≡ self.old.seen }
    {
        put(&mut self.changed, dir)?;
        Ok(())
    }

    /// Notes a directory that was made. What this process finds in it later is its own.
    #[tactic(auto, using(crate::proofs::Dirs::sees_same, crate::proofs::Dirs::sees_after))]
    pub fn make(&mut self, dir: FPath) -> Result<(), AllocError>
        ensures sees { Sees self.old self.new }
        ensures changed { OnOk result (IsTrue (has self.new.changed dir)) }
        ensures keeps { (at : Path) → IsTrue (has self.old.changed at) → IsTrue (has self.new.changed at) }
    {
        add(&mut self.changed, &dir)?;
        put(&mut self.known, dir)?;
        Ok(())
    }

    /// Notes that a directory whose entries change loses one to another directory.
    pub fn lose(&mut self, dir: FPath) -> Result<(), AllocError>
        ensures { self.new ≡ self.old }
    {
        put(&mut self.lost, dir)
    }

    /// Whether a directory whose entries changed has lost one to another.
    pub fn has_lost(&self, dir: &FPath) -> bool {
        self.lost.contains(dir)
    }

    /// Of the directories of which entries were seen, none has to be synced any more but for what this process changes.
    pub fn let_go_of_due(&mut self)
        ensures { self.new ≡ self.old }
    {
        self.due.clear();
    }

    /// Lets go of what is noted, once it is synced.
    pub fn let_go(&mut self)
        ensures seen { self.new.seen ≡ [] }
        ensures changed { self.new.changed ≡ [] }
        ensures known { self.new.known ≡ self.old.known }
    {
        self.seen.clear();
        self.due.clear();
        self.changed.clear();
        self.lost.clear();
    }

    /// Forgets a directory that is removed.
    pub fn forget(&mut self, dir: &FPath)
        ensures sees { SeesBut dir.now self.old self.new }
        ensures keeps { (at : Path) → IsFalse (same dir.now at) → IsTrue (has self.old.changed at) → IsTrue (has self.new.changed at) }
    {
        self.lately.clear();
        self.known.remove(dir);
        self.seen.remove(dir);
        self.changed.remove(dir);
        self.due.remove(dir);
        self.lost.remove(dir);
    }

    /// Forgets of which directories entries were seen.
    #[tactic(auto, using(crate::proofs::Dirs::sees_same, crate::proofs::Dirs::sees_after))]
    pub fn unknow(&mut self, dirs: &[FPath])
        ensures sees { Sees self.old self.new }
        ensures seen { self.new.seen ≡ self.old.seen }
        ensures changed { self.new.changed ≡ self.old.changed }
    {
        for dir in dirs {
            self.unknow_one(dir);
        }
    }

    fn unknow_one(&mut self, dir: &FPath)
        ensures sees { Sees self.old self.new }
        ensures seen { self.new.seen ≡ self.old.seen }
        ensures changed { self.new.changed ≡ self.old.changed }
    {
        self.lately.clear();
        self.known.remove(dir);
    }

    /// The directories at and below a path of which entries were seen.
    pub fn known_below(&self, at: &FPath) -> Result<Vec<FPath>, AllocError> {
        let mut below = Vec::new(self.alloc);
        for dir in self.known.range((Bound::Included(at), Bound::Unbounded)) {
            if !dir.starts_with(at) {
                break;
            }
            below.push(dir.copy()?)?;
        }
        Ok(below)
    }

    /// The directories whose entries changed.
    pub fn changed(&self) -> &BTreeSet<FPath, Global>
        ensures { result.now.keys ≡ self.now.changed }
    {
        &self.changed
    }

    /// The directories of which entries were seen and that weren't synced since.
    pub fn due(&self) -> &BTreeSet<FPath, Global> {
        &self.due
    }
}

// Adds a copy of a directory to some.
fn add(dirs: &mut BTreeSet<FPath, Global>, dir: &FPath) -> Result<(), AllocError>
    ensures has { OnOk result (IsTrue (has dirs.new.keys dir.now)) }
    ensures more { OnOk result (HasMore dirs.old.keys dirs.new.keys dir.now) }
    ensures same { OnErr result (dirs.new.keys ≡ dirs.old.keys) }
{
    put(dirs, dir.copy()?)
}

// Adds a directory to some.
fn put(dirs: &mut BTreeSet<FPath, Global>, dir: FPath) -> Result<(), AllocError>
    ensures has { OnOk result (IsTrue (has dirs.new.keys dir)) }
    ensures more { OnOk result (HasMore dirs.old.keys dirs.new.keys dir) }
    ensures same { OnErr result (dirs.new.keys ≡ dirs.old.keys) }
{
    dirs.insert(dir)?;
    Ok(())
}
