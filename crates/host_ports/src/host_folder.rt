//! A folder of the machine.

mod calls;
mod changing;
mod looking;
mod moving;
mod syncing;

ghost use Rattle.std.specs.Prelude.{◌≡◌, ◌++◌, [], IfOk, IsTrue, OnErr, OnOk};
ghost use Rattle.host_ports.specs.Ground.{IsStopped, KeepsBars, no_bars};

use crate::sign_of_life::SignOfLife;
use folder_model::{FPath, FolderFault};
use host_places::{
    Cause, Claims, Handles, Kinds, Noted, Trouble, Wanted, Watched, fault_of, metadata_at,
    mounted_of, text_of,
};
use std::alloc::{AllocError, Global};
use std::marker::Model;
use std::os::unix::fs::PermissionsExt;

/// A folder of the machine, below a base directory. It tells nothing of its contents.
///
/// It follows no link below the base: what stands there is `Other`, and nothing stands below it. A call is refused where
/// the machine has something in its way. What was refused is counted too. Once a claim isn't had, no call changes anything.
#[derive(Drop)]
pub struct HostFolder {
    rt: HostRuntime,
    alloc: Global,
    base: String,
    noted: Noted,
    asked: Vec<Wanted>,
    claims: Claims,
    watched: Watched,
    handles: Handles,
    kinds: Kinds,
    life: SignOfLife,
    trouble: Option<Trouble>,
    barred: bool,
    stopped: bool,
    blind: bool,
    faults: u64,
}

impl Model for HostFolder {
    ghost use Rattle.host_ports.specs.Ground.{Ground};

    ghost Value = { Ground };

    ghost view = { λ f. record {
      dirs = f.noted;
      barred = record { changes = f.barred; settles = f.stopped; reads = f.blind };
      asked = f.asked.items;
      faults = f.faults;
    } };
}

impl HostFolder {
    /// The folder below the directory at this text, or below the working directory where the text is empty.
    pub fn new(rt: HostRuntime, alloc: Global, base: &str) -> Result<HostFolder, AllocError>
        ensures { IfOk result (λ f. f ≡ record { dirs = record { known = []; seen = []; changed = [] }; barred = no_bars; asked = []; faults = 0 }) }
    {
        let base = if base.is_empty() { "." } else { base };
        Ok(HostFolder {
            rt,
            alloc,
            base: String::from_str(alloc, base)?,
            noted: Noted::new(alloc),
            asked: Vec::new(alloc),
            claims: Claims::new(alloc),
            watched: Watched::new(alloc),
            handles: Handles::new(),
            kinds: Kinds::new(alloc),
            life: SignOfLife::hidden(),
            trouble: None,
            barred: false,
            stopped: false,
            blind: false,
            faults: 0,
        })
    }

    /// Claims paths for this run, in their order, by locks of the directories that stand there and above them. Where another run
    /// holds one, nothing is changed or settled any more. What was asked for is kept.
    #[tactic(auto, using(crate::proofs::Bars::keeps_same, crate::proofs::Bars::keeps_after, crate::proofs::Bars::keeps_with))]
    pub fn claim(&mut self, wanted: &mut [Wanted]) -> Result<(), FolderFault>
        ensures asks { OnOk result (self.new.asked ≡ self.old.asked ++ wanted.old) }
        ensures stopped { OnErr result (IsStopped self.new.barred) }
        ensures keeps { KeepsBars self.old.barred self.new.barred }
        ensures dirs { self.new.dirs ≡ self.old.dirs }
    {
        if self.ask(wanted).is_err() {
            self.stop();
            return Err(FolderFault::NoMemory);
        }
        self.claim_each(wanted)
    }

    // Keeps what is asked for.
    fn ask(&mut self, wanted: &[Wanted]) -> Result<(), AllocError>
        ensures asks { OnOk result (self.new.asked ≡ self.old.asked ++ wanted.now) }
        ensures bar { self.new.barred ≡ self.old.barred }
        ensures dirs { self.new.dirs ≡ self.old.dirs }
    {
        for one in wanted {
            self.asked.push(one.copy()?)?;
        }
        Ok(())
    }

    #[tactic(auto, using(crate::proofs::Bars::keeps_same, crate::proofs::Bars::keeps_after, crate::proofs::Bars::keeps_with))]
    fn claim_each(&mut self, wanted: &mut [Wanted]) -> Result<(), FolderFault>
        ensures stopped { OnErr result (IsStopped self.new.barred) }
        ensures asked { self.new.asked ≡ self.old.asked }
        ensures keeps { KeepsBars self.old.barred self.new.barred }
        ensures dirs { self.new.dirs ≡ self.old.dirs }
    {
        wanted.sort_unstable_by(|one, other| one.at.cmp(&other.at));
        for one in wanted {
            self.claim_one(one)?;
        }
        Ok(())
    }

    #[tactic(auto, using(crate::proofs::Bars::keeps_same, crate::proofs::Bars::keeps_after, crate::proofs::Bars::keeps_with))]
    fn claim_one(&mut self, wanted: &Wanted) -> Result<(), FolderFault>
        ensures stopped { OnErr result (IsStopped self.new.barred) }
        ensures keeps { KeepsBars self.old.barred self.new.barred }
        ensures asked { self.new.asked ≡ self.old.asked }
        ensures dirs { self.new.dirs ≡ self.old.dirs }
    {
        match self
            .claims
            .add(&self.rt, self.alloc, self.base.as_str(), wanted)
        {
            Ok(()) => Ok(()),
            Err(cause) => {
                self.stop_at(&wanted.at, cause);
                Err(fault_of(cause))
            }
        }
    }

    // Nothing is changed or settled from here on, for what was found at a path.
    #[tactic(auto, using(crate::proofs::Bars::keeps_same, crate::proofs::Bars::keeps_after, crate::proofs::Bars::keeps_with))]
    fn stop_at(&mut self, at: &FPath, cause: Cause)
        ensures stopped { IsStopped self.new.barred }
        ensures keeps { KeepsBars self.old.barred self.new.barred }
        ensures asked { self.new.asked ≡ self.old.asked }
        ensures dirs { self.new.dirs ≡ self.old.dirs }
        ensures faults { self.new.faults ≡ self.old.faults }
    {
        self.keep_trouble(Trouble::new(at, cause));
        self.stop();
    }

    // Nothing is changed or settled from here on.
    #[tactic(auto, using(crate::proofs::Bars::keeps_same, crate::proofs::Bars::keeps_after, crate::proofs::Bars::keeps_with))]
    fn stop(&mut self)
        ensures stopped { IsStopped self.new.barred }
        ensures keeps { KeepsBars self.old.barred self.new.barred }
        ensures asked { self.new.asked ≡ self.old.asked }
        ensures dirs { self.new.dirs ≡ self.old.dirs }
        ensures faults { self.new.faults ≡ self.old.faults }
    {
        self.barred = true;
        self.stopped = true;
    }

    /// Nothing is changed from here on, since no journal of use was at this path; settles go on.
    #[tactic(auto, using(crate::proofs::Bars::keeps_same, crate::proofs::Bars::keeps_after, crate::proofs::Bars::keeps_with))]
    pub fn bar_changes(&mut self, at: &FPath)
        ensures barred { IsTrue self.new.barred.changes }
        ensures keeps { KeepsBars self.old.barred self.new.barred }
        ensures settles { self.new.barred.settles ≡ self.old.barred.settles }
        ensures reads { self.new.barred.reads ≡ self.old.barred.reads }
        ensures asked { self.new.asked ≡ self.old.asked }
        ensures dirs { self.new.dirs ≡ self.old.dirs }
    {
        self.keep_trouble(Trouble::new(at, Cause::Unclaimed));
        self.barred = true;
    }

    /// Where nothing may be changed, nothing is read from here on either.
    #[tactic(auto, using(crate::proofs::Bars::keeps_same, crate::proofs::Bars::keeps_after, crate::proofs::Bars::keeps_with))]
    pub fn bar_reads_where_changes_are(&mut self)
        ensures barred { IsTrue self.old.barred.changes → IsTrue self.new.barred.reads }
        ensures changes { self.new.barred.changes ≡ self.old.barred.changes }
        ensures keeps { KeepsBars self.old.barred self.new.barred }
        ensures asked { self.new.asked ≡ self.old.asked }
        ensures dirs { self.new.dirs ≡ self.old.dirs }
    {
        if self.barred {
            self.blind = true;
        }
    }

    /// Sees to it that none of the claimed directories is a vault that gocryptfs has mounted. Otherwise nothing is changed any more.
    #[tactic(auto, using(crate::proofs::Bars::keeps_same, crate::proofs::Bars::keeps_after, crate::proofs::Bars::keeps_with))]
    pub fn keep_unmounted(&mut self)
        ensures keeps { KeepsBars self.old.barred self.new.barred }
        ensures asked { self.new.asked ≡ self.old.asked }
        ensures dirs { self.new.dirs ≡ self.old.dirs }
    {
        if let Some(at) = mounted_of(&self.rt, self.alloc, &self.claims) {
            self.stop_at(&at, Cause::Mounted);
        }
    }

    /// Sees to it that what stands at two claimed paths, or else above them, is on one file system. Otherwise nothing is changed any
    /// more.
    #[tactic(auto, using(crate::proofs::Bars::keeps_same, crate::proofs::Bars::keeps_after, crate::proofs::Bars::keeps_with))]
    pub fn keep_on_one_file_system(&mut self, one: &FPath, other: &FPath)
        ensures keeps { KeepsBars self.old.barred self.new.barred }
        ensures asked { self.new.asked ≡ self.old.asked }
        ensures dirs { self.new.dirs ≡ self.old.dirs }
    {
        let (here, there) = (self.claims.device_of(one), self.claims.device_of(other));
        if here.is_some() && there.is_some() && here != there {
            self.stop_at(other, Cause::OtherFileSystem);
        }
    }

    /// From here on a run that goes on for more than a second shows on the terminal how far it has come.
    pub fn show_life(&mut self)
        ensures { self.new ≡ self.old }
    {
        self.life.show(&self.rt);
    }

    /// Takes the line that tells how far the run has come off the terminal.
    pub fn wipe(&mut self)
        ensures { self.new ≡ self.old }
    {
        self.life.wipe(&self.rt);
    }

    /// Where and why a call failed last, or why nothing is changed any more.
    pub fn trouble(&self) -> &Option<Trouble> {
        &self.trouble
    }

    /// The mode of what stands at a path, which says who may use it, where something stands there that isn't a link.
    pub fn mode_at(&self, at: &FPath) -> Option<u32> {
        let text = text_of(self.alloc, self.base.as_str(), at.parts()).ok()?;
        match metadata_at(&self.rt, text.as_str()) {
            Ok(Some(metadata)) if !metadata.is_symlink() => Some(metadata.permissions().mode()),
            _ => None,
        }
    }

    // Keeps why a call failed, unless it did since it is barred: then the cause is why.
    fn keep_trouble(&mut self, trouble: Trouble)
        ensures { self.new ≡ self.old }
    {
        if !(self.stopped || self.barred && trouble.cause.is_held()) {
            self.trouble = Some(trouble);
        }
    }

    // A call may change what stands at a path: no claim is missing, and what stands now at the claimed paths at or above it is held.
    fn may_change(&mut self, at: &FPath) -> Result<(), Cause>
        ensures barred { IsTrue self.old.barred.changes → result ≡ Err Cause.Held }
        ensures same { self.new ≡ self.old }
    {
        self.test_barred()?;
        self.claims
            .renew(&self.rt, self.alloc, self.base.as_str(), at)
    }

    fn test_barred(&self) -> Result<(), Cause>
        ensures { IsTrue self.now.barred.changes → result ≡ Err Cause.Held }
    {
        free(self.barred)
    }

    fn test_stopped(&self) -> Result<(), Cause>
        ensures { IsTrue self.now.barred.settles → result ≡ Err Cause.Held }
    {
        free(self.stopped)
    }

    fn test_blind(&self) -> Result<(), Cause>
        ensures { IsTrue self.now.barred.reads → result ≡ Err Cause.Held }
    {
        free(self.blind)
    }
}

fn free(barred: bool) -> Result<(), Cause>
    ensures { IsTrue barred → result ≡ Err Cause.Held }
{
    if barred { Err(Cause::Held) } else { Ok(()) }
}
