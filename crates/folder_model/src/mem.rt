//! A folder in memory, which can be made to fail.
mod answers;
mod call;
mod crash;
mod list;
mod node;
mod plan;
mod step;
mod table;

ghost use Rattle.std.specs.Prelude.{◌≡◌, ◌≤◌, length, take, min};
ghost use Rattle.folder_model.specs.Nodes.{KeepsFronts};
ghost use Rattle.folder_model.specs.Steps.{AreSoundTables};
ghost use Rattle.folder_model.specs.Tables.{names_of};

use crate::entry::Entry;
use crate::path::FPath;
use call::{Call, Logged, Outcome};
pub use crash::Pick;
use folder_spec::{FolderFault, Kind, Spot};
use list::{add_spot, kind_at};
use node::{FileBytes, are_clean, read_from};
use plan::CallPlan;
use std::alloc::{AllocError, Global};
use step::{Step, look, names};
use table::{NameTable, absorb_all};

/// A folder in memory. It tells its state and its log.
///
/// It keeps one table as an ordered map, the steps that made the tables after it, and how many of
/// these are kept. A settle does the steps to the map, as far as there is memory for it.
#[derive(Drop)]
pub struct MemFolder {
    alloc: Global,
    nodes: Vec<FileBytes>,
    base: NameTable,
    steps: Vec<Step>,
    kept: usize,
    log: Vec<Logged>,
    plan: CallPlan,
    faults: u64,
    ghost within: { kept ≤ length steps.items },
    ghost fronts: { KeepsFronts nodes.items },
    ghost sound: { AreSoundTables (length nodes.items) (names_of base) steps.items },
}

// So many first bytes, or all where there are fewer.
fn front_of(bytes: &[u8], count: u64) -> &[u8]
    ensures { result.now ≡ take (min count (length bytes.now)) bytes.now }
{
    let count = bytes.len().min(count as usize);
    &bytes[..count]
}

impl MemFolder {
    ghost use Rattle.std.specs.Prelude.{◌≡◌, ◌↔◌, ℕ, ◌+◌, ◌++◌, None, Some, min, length, vec_len, vec_capacity, IfOk, OnOk, OnErr, IsTrue, [], ◌∷◌};
    ghost use Rattle.folder_spec.specs.State.{present, HasFile, IsSound};
    ghost use Rattle.folder_spec.specs.Event.{IsFree, IsEmptyDir, Allowed, AllowedIn, with_table, changed, Create, Settle, Append, Sync, Rename, RemoveDir, Steps, fallen, outcome_state, piece_of};
    ghost use Rattle.folder_spec.specs.View.{Folder, kind_found};
    ghost use Rattle.folder_spec.specs.Seen.{seen, ShowsFile};
    ghost use Rattle.folder_spec.specs.Listing.{IsListing};
    ghost use Rattle.port_model.specs.Counts.{CountRose, IsCounted};
    ghost use Rattle.folder_model.specs.Answers.{AnswersBy, Counts, Reads};
    ghost use Rattle.folder_model.specs.Calls.{call_of, outcome_of};
    ghost use Rattle.folder_model.specs.Steps.{step_table};
    ghost use Rattle.folder_model.specs.Memory.{state_of, told_of, faults_of, new_told, KeepsRest, plan_of, MayPlace, with_other, FellBy};
    ghost use Rattle.folder_model.specs.Plan.{new_plan, with_failing, with_append_failing, with_stop, counted, counted_change, due, is_due, fails_next, change_fails_next, added_next, FailsAs};

    fn spot(&self, at: &FPath) -> Result<Spot, AllocError>
        ensures { IfOk result (λ spot. spot ≡ present (state_of self.now) at.now) }
    {
        look(&self.base, self.steps.as_slice(), at)
    }

    fn push_step(&mut self, step: Step) -> Result<(), AllocError>
        requires { IsSound (with_table (state_of self.old) (step_table (present (state_of self.old)) step)) }
        ensures ok { OnOk result (state_of self.new ≡ with_table (state_of self.old) (step_table (present (state_of self.old)) step)) }
        ensures err { OnErr result (state_of self.new ≡ state_of self.old) }
        ensures rest { KeepsRest self.old self.new }
    {
        self.steps.push(step)?;
        Ok(())
    }

    fn create_file(&mut self, at: FPath) -> Result<(), AllocError>
        requires { IsFree (present (state_of self.old)) at }
        ensures ok { OnOk result (state_of self.new ≡ changed (state_of self.old) (Create at)) }
        ensures err { OnErr result (state_of self.new ≡ state_of self.old) }
        ensures rest { KeepsRest self.old self.new }
    {
        let number = self.nodes.len();
        self.steps.reserve(1)?;
        self.nodes.reserve(1)?;
        let _ = self.nodes.push(FileBytes::new(self.alloc));
        let _ = self.steps.push(Step::Put(at, Spot::FileNode(number)));
        Ok(())
    }

    fn settle_all(&mut self)
        ensures state { state_of self.new ≡ changed (state_of self.old) Settle }
        ensures rest { KeepsRest self.old self.new }
    {
        absorb_all(&mut self.base, &mut self.steps);
        self.kept = self.steps.len();
    }

    fn grow_file(&mut self, at: &FPath, piece: &[u8]) -> Result<(), AllocError>
        requires { HasFile (present (state_of self.old)) at.now }
        ensures ok { OnOk result (state_of self.new ≡ changed (state_of self.old) (Append at.now piece.now)) }
        ensures err { OnErr result (state_of self.new ≡ state_of self.old) }
        ensures rest { KeepsRest self.old self.new }
    {
        match self.spot(at)? {
            Spot::FileNode(number) => {
                let node = &mut self.nodes[number];
                node.grow(piece)
            }
            _ => Ok(()),
        }
    }

    fn sync_file(&mut self, at: &FPath) -> Result<(), AllocError>
        requires { HasFile (present (state_of self.old)) at.now }
        ensures ok { OnOk result (state_of self.new ≡ changed (state_of self.old) (Sync at.now)) }
        ensures err { OnErr result (state_of self.new ≡ state_of self.old) }
        ensures rest { KeepsRest self.old self.new }
    {
        match self.spot(at)? {
            Spot::FileNode(number) => {
                let node = &mut self.nodes[number];
                node.sync();
                Ok(())
            }
            _ => Ok(()),
        }
    }

    fn is_file(&self, at: &FPath) -> Result<bool, AllocError>
        ensures { IfOk result (λ is. IsTrue is ↔ HasFile (present (state_of self.now)) at.now) }
    {
        match self.spot(at)? {
            Spot::FileNode(_) => Ok(true),
            _ => Ok(false),
        }
    }

    fn is_free(&self, at: &FPath) -> Result<bool, AllocError>
        ensures { IfOk result (λ is. IsTrue is ↔ IsFree (present (state_of self.now)) at.now) }
    {
        let above = self.spot(&at.parent()?)?;
        match self.spot(at)? {
            Spot::Nothing => match above {
                Spot::Directory => Ok(true),
                _ => Ok(false),
            },
            _ => Ok(false),
        }
    }

    fn may_rename(&self, old: &FPath, new: &FPath) -> Result<bool, AllocError>
        ensures { IfOk result (λ is. IsTrue is ↔ AllowedIn (present (state_of self.now)) (Rename old.now new.now)) }
    {
        if old.depth() == 0 {
            return Ok(false);
        }
        if new.starts_with(old) {
            return Ok(false);
        }
        match self.spot(old)? {
            Spot::Nothing => return Ok(false),
            _ => {}
        }
        if self.is_free(new)? {
            return Ok(true);
        }
        if !self.is_file(old)? {
            return Ok(false);
        }
        self.is_file(new)
    }

    // Does a call that is allowed. Of a call that wants memory nothing is done.
    fn apply(&mut self, call: &Call) -> Result<(), AllocError>
        requires { Allowed (state_of self.old) (call_of call.now) }
        ensures ok { OnOk result (state_of self.new ≡ changed (state_of self.old) (call_of call.now)) }
        ensures err { OnErr result (state_of self.new ≡ state_of self.old) }
        ensures rest { KeepsRest self.old self.new }
    {
        match call {
            Call::MakeDir(at) => {
                let step = Step::Put(at.copy()?, Spot::Directory);
                self.push_step(step)
            }
            Call::Create(at) => {
                let at = at.copy()?;
                self.create_file(at)
            }
            Call::Append(at, piece) => self.grow_file(at, piece.as_slice()),
            Call::Sync(at) => self.sync_file(at),
            Call::Settle => {
                self.settle_all();
                Ok(())
            }
            Call::Rename(old, new) => {
                let step = Step::Move(old.copy()?, new.copy()?);
                self.push_step(step)
            }
            Call::RemoveFile(at) => {
                let step = Step::Put(at.copy()?, Spot::Nothing);
                self.push_step(step)
            }
            Call::RemoveDir(at) => {
                let step = Step::Put(at.copy()?, Spot::Nothing);
                self.push_step(step)
            }
        }
    }

    // Counts a call that changes nothing, and says whether it is to fail.
    fn is_due(&mut self) -> bool
        ensures due { result ≡ fails_next (plan_of self.old) }
        ensures plan { plan_of self.new ≡ counted (plan_of self.old) }
        ensures told { told_of self.new ≡ told_of self.old }
        ensures state { state_of self.new ≡ state_of self.old }
        ensures log { self.new.log ≡ self.old.log }
        ensures faults { self.new.faults ≡ self.old.faults }
    {
        self.plan.count_call();
        self.plan.due().is_some()
    }

    // Counts a changing call, and says what it adds where it is an append, if it is to fail.
    fn change_due(&mut self) -> Option<u64>
        ensures due { result ≡ due (counted_change (plan_of self.old)) }
        ensures plan { plan_of self.new ≡ counted_change (plan_of self.old) }
        ensures told { told_of self.new ≡ told_of self.old }
        ensures state { state_of self.new ≡ state_of self.old }
        ensures log { self.new.log ≡ self.old.log }
        ensures faults { self.new.faults ≡ self.old.faults }
    {
        self.plan.count_change();
        self.plan.due()
    }

    // Whether the call's condition holds.
    fn allows(&self, call: &Call) -> Result<bool, AllocError>
        ensures { IfOk result (λ is. IsTrue is ↔ Allowed (state_of self.now) (call_of call.now)) }
    {
        match call {
            Call::MakeDir(at) => self.is_free(at),
            Call::Create(at) => self.is_free(at),
            Call::Append(at, _) => self.is_file(at),
            Call::Sync(at) => self.is_file(at),
            Call::Settle => Ok(true),
            Call::Rename(old, new) => self.may_rename(old, new),
            Call::RemoveFile(at) => self.is_file(at),
            Call::RemoveDir(at) => self.may_remove_dir(at),
        }
    }

    // Logs a call, for which there is room.
    fn note(&mut self, call: Call, outcome: Outcome)
        requires { vec_len self.old.log + 1 ≤ vec_capacity self.old.log }
        ensures log { (told_of self.new).log ≡ (told_of self.old).log ++ record { call = call_of call; outcome = outcome_of outcome } ∷ [] }
        ensures state { state_of self.new ≡ state_of self.old }
        ensures faults { self.new.faults ≡ self.old.faults }
        ensures plan { plan_of self.new ≡ plan_of self.old }
    {
        let _ = self.log.push(Logged { call, outcome });
    }

    fn count_fault(&mut self)
        ensures risen { IsCounted self.old.faults self.new.faults × CountRose self.old.faults self.new.faults }
        ensures told { told_of self.new ≡ told_of self.old }
        ensures log { self.new.log ≡ self.old.log }
        ensures state { state_of self.new ≡ state_of self.old }
        ensures plan { plan_of self.new ≡ plan_of self.old }
    {
        self.faults = self.faults.saturating_add(1);
    }

    // Answers a changing call for which there is no memory. It is counted too.
    fn want_memory(&mut self) -> Result<(), FolderFault>
        ensures answer { result ≡ Err FolderFault.NoMemory }
        ensures plan { plan_of self.new ≡ counted_change (plan_of self.old) }
        ensures told { told_of self.new ≡ told_of self.old }
        ensures faults { self.new.faults ≡ self.old.faults }
    {
        let _ = self.change_due();
        Err(FolderFault::NoMemory)
    }

    // Adds so many first bytes of an append's piece, or all where it has fewer, and says how many.
    fn add_front(&mut self, call: &Call, added: u64) -> Result<usize, AllocError>
        requires { Allowed (state_of self.old) (call_of call.now) }
        ensures count { IfOk result (λ n. n ≡ min added (length (piece_of (call_of call.now)))) }
        ensures ok { IfOk result (λ n. state_of self.new ≡ fallen (state_of self.old) (call_of call.now) n) }
        ensures err { OnErr result (state_of self.new ≡ state_of self.old) }
        ensures rest { KeepsRest self.old self.new }
    {
        match call {
            Call::Append(at, piece) => {
                let front = front_of(piece.as_slice(), added);
                self.grow_file(at, front)?;
                Ok(front.len())
            }
            Call::MakeDir(_) => Ok(0),
            Call::Create(_) => Ok(0),
            Call::Sync(_) => Ok(0),
            Call::Settle => Ok(0),
            Call::Rename(_, _) => Ok(0),
            Call::RemoveFile(_) => Ok(0),
            Call::RemoveDir(_) => Ok(0),
        }
    }

    // Makes room to log a call, and does it, refuses it or lets it fail. Of a call that wants memory
    // nothing is done.
    fn outcome(&mut self, call: &Call, due: Option<u64>) -> Result<Outcome, AllocError>
        ensures room { IfOk result (λ outcome. vec_len self.new.log + 1 ≤ vec_capacity self.new.log) }
        ensures done { IfOk result (λ outcome. outcome ≡ Outcome.Done → (due ≡ None) × Allowed (state_of self.old) (call_of call.now)) }
        ensures failed { IfOk result (λ outcome. (n : ℕ) → outcome ≡ Outcome.Failed n → (added : ℕ) × (due ≡ Some added) × Allowed (state_of self.old) (call_of call.now) × (n ≡ min added (length (piece_of (call_of call.now))))) }
        ensures refused { IfOk result (λ outcome. outcome ≡ Outcome.Refused → ¬ Allowed (state_of self.old) (call_of call.now)) }
        ensures ok { IfOk result (λ outcome. state_of self.new ≡ outcome_state (state_of self.old) (call_of call.now) (outcome_of outcome)) }
        ensures err { OnErr result (state_of self.new ≡ state_of self.old) }
        ensures log { self.new.log.items ≡ self.old.log.items }
        ensures faults { self.new.faults ≡ self.old.faults }
        ensures plan { plan_of self.new ≡ plan_of self.old }
    {
        self.log.reserve(1)?;
        if !self.allows(call)? {
            return Ok(Outcome::Refused);
        }
        match due {
            Some(added) => Ok(Outcome::Failed(self.add_front(call, added)?)),
            None => {
                self.apply(call)?;
                Ok(Outcome::Done)
            }
        }
    }

    // Answers a call that changes the folder. It does all of the change or nothing of it, but for
    // an append that fails.
    fn run(&mut self, call: Call) -> Result<(), FolderFault>
        ensures changes { Steps (call_of call) (told_of self.old) (told_of self.new) result }
        ensures added { FellBy (added_next (plan_of self.old)) (call_of call) (told_of self.old) (told_of self.new) result }
        ensures counts { Counts (Some (told_of self.old)) self.old.faults self.new.faults result }
        ensures plan { plan_of self.new ≡ counted_change (plan_of self.old) }
        ensures due { FailsAs (change_fails_next (plan_of self.old)) result }
    {
        let due = self.change_due();
        match self.outcome(&call, due) {
            Ok(Outcome::Done) => {
                self.note(call, Outcome::Done);
                Ok(())
            }
            Ok(Outcome::Failed(added)) => {
                self.note(call, Outcome::Failed(added));
                self.count_fault();
                Err(FolderFault::Failed)
            }
            Ok(Outcome::Refused) => {
                self.note(call, Outcome::Refused);
                Err(FolderFault::Refused)
            }
            Err(_) => Err(FolderFault::NoMemory),
        }
    }

    fn may_remove_dir(&self, at: &FPath) -> Result<bool, AllocError>
        ensures { IfOk result (λ is. IsTrue is ↔ AllowedIn (present (state_of self.now)) (RemoveDir at.now)) }
    {
        if at.depth() == 0 {
            return Ok(false);
        }
        match self.spot(at)? {
            Spot::Directory => {}
            _ => return Ok(false),
        }
        let found = names(self.alloc, &self.base, self.steps.as_slice(), at)?;
        for name in &found {
            match self.spot(&at.child(name.as_str())?)? {
                Spot::Nothing => {}
                _ => return Ok(false),
            }
        }
        Ok(true)
    }

    // The entries of the directory, in order.
    fn entries(&self, at: &FPath) -> Result<Vec<Entry>, AllocError>
        ensures { IfOk result (λ entries. IsListing (seen (state_of self.now)) at.now entries.items) }
    {
        let found = names(self.alloc, &self.base, self.steps.as_slice(), at)?;
        let mut entries = Vec::new(self.alloc);
        for name in &found {
            let spot = self.spot(&at.child(name.as_str())?)?;
            add_spot(self.alloc, &mut entries, name.as_str(), spot)?;
        }
        Ok(entries)
    }

    /// An empty folder, with an empty log and no faults.
    pub fn new(alloc: Global) -> Result<MemFolder, AllocError>
        ensures told { IfOk result (λ m. told_of m ≡ new_told) }
        ensures faults { IfOk result (λ m. faults_of m ≡ 0) }
        ensures plan { IfOk result (λ m. plan_of m ≡ new_plan) }
    {
        Ok(MemFolder {
            alloc,
            nodes: Vec::new(alloc),
            base: NameTable::base(alloc)?,
            steps: Vec::new(alloc),
            kept: 0,
            log: Vec::new(alloc),
            plan: CallPlan::new(alloc),
            faults: 0,
        })
    }

    /// Lets a later call fail, by its number from 1 on over all calls from now on. An append then
    /// adds nothing.
    pub fn fail_at(&mut self, call: u64) -> Result<(), AllocError>
        ensures ok { OnOk result (plan_of self.new ≡ with_failing (plan_of self.old) call) }
        ensures err { OnErr result (plan_of self.new ≡ plan_of self.old) }
        ensures told { told_of self.new ≡ told_of self.old }
        ensures faults { faults_of self.new ≡ faults_of self.old }
    {
        self.plan.fail(call, 0)
    }

    /// Lets a later call fail as `fail_at` does. Where it is an append, it then adds the first
    /// `added` bytes of its piece, or all where it has fewer.
    pub fn fail_append_at(&mut self, call: u64, added: u64) -> Result<(), AllocError>
        ensures ok { OnOk result (plan_of self.new ≡ with_append_failing (plan_of self.old) call added) }
        ensures err { OnErr result (plan_of self.new ≡ plan_of self.old) }
        ensures told { told_of self.new ≡ told_of self.old }
        ensures faults { faults_of self.new ≡ faults_of self.old }
    {
        self.plan.fail(call, added)
    }

    /// Lets a later changing call fail and every call after it, by the number of that call from 1
    /// on over the changing calls from now on. At 0 every call from now on fails.
    pub fn stop_at(&mut self, event: u64)
        ensures plan { plan_of self.new ≡ with_stop (plan_of self.old) event }
        ensures told { told_of self.new ≡ told_of self.old }
        ensures faults { faults_of self.new ≡ faults_of self.old }
    {
        self.plan.stop(event);
    }

    /// Whether an entry of another kind may be placed: nothing is pending, nothing stands at the
    /// path, and a directory stands above it.
    pub fn may_place(&self, at: &FPath) -> Result<bool, AllocError>
        ensures { IfOk result (λ may. IsTrue may ↔ MayPlace (state_of self.now) at.now) }
    {
        if self.kept < self.steps.len() {
            return Ok(false);
        }
        if !are_clean(self.nodes.as_slice()) {
            return Ok(false);
        }
        self.is_free(at)
    }

    /// Places an entry that is neither a file nor a directory, and empties the log.
    pub fn place_other(&mut self, at: &FPath) -> Result<(), AllocError>
        requires { MayPlace (state_of self.old) at.now }
        ensures ok { OnOk result (told_of self.new ≡ record { state = with_other (state_of self.old) at.now; log = [] }) }
        ensures err { OnErr result (told_of self.new ≡ told_of self.old) }
        ensures plan { plan_of self.new ≡ plan_of self.old }
        ensures faults { faults_of self.new ≡ faults_of self.old }
    {
        let step = Step::Put(at.copy()?, Spot::Odd);
        self.push_step(step)?;
        self.settle_all();
        self.log.clear();
        Ok(())
    }

    fn kind_now(&mut self, at: &FPath) -> Result<Kind, FolderFault>
        ensures told { told_of self.new ≡ told_of self.old }
        ensures answer { AnswersBy (Unit {0}) (λ kind. kind ≡ kind_found (seen (state_of self.old) at.now)) result }
        ensures counts { Counts (Some (told_of self.old)) self.old.faults self.new.faults result }
        ensures plan { plan_of self.new ≡ counted (plan_of self.old) }
        ensures due { FailsAs (fails_next (plan_of self.old)) result }
    {
        let due = self.is_due();
        let Ok(spot) = self.spot(at) else {
            return Err(FolderFault::NoMemory);
        };
        if due {
            self.count_fault();
            return Err(FolderFault::Failed);
        }
        Ok(kind_at(spot))
    }

    fn list_now(&mut self, at: &FPath) -> Result<Vec<Entry>, FolderFault>
        ensures told { told_of self.new ≡ told_of self.old }
        ensures answer { AnswersBy (seen (state_of self.old) at.now ≡ Folder) (λ entries. IsListing (seen (state_of self.old)) at.now entries.items) result }
        ensures counts { Counts (Some (told_of self.old)) self.old.faults self.new.faults result }
        ensures plan { plan_of self.new ≡ counted (plan_of self.old) }
        ensures due { FailsAs (fails_next (plan_of self.old)) result }
    {
        let due = self.is_due();
        let Ok(spot) = self.spot(at) else {
            return Err(FolderFault::NoMemory);
        };
        match spot {
            Spot::Directory => {}
            _ => return Err(FolderFault::Refused),
        }
        if due {
            self.count_fault();
            return Err(FolderFault::Failed);
        }
        match self.entries(at) {
            Ok(entries) => Ok(entries),
            Err(_) => Err(FolderFault::NoMemory),
        }
    }

    fn read_now(&mut self, at: &FPath, start: u64, out: &mut [u8]) -> Result<usize, FolderFault>
        ensures told { told_of self.new ≡ told_of self.old }
        ensures answer { AnswersBy (ShowsFile (seen (state_of self.old)) at.now) (λ n. Reads (seen (state_of self.old) at.now) start out.old out.new n) result }
        ensures unread { OnErr result (out.new ≡ out.old) }
        ensures counts { Counts (Some (told_of self.old)) self.old.faults self.new.faults result }
        ensures plan { plan_of self.new ≡ counted (plan_of self.old) }
        ensures due { FailsAs (fails_next (plan_of self.old)) result }
    {
        let due = self.is_due();
        let Ok(spot) = self.spot(at) else {
            return Err(FolderFault::NoMemory);
        };
        match spot {
            Spot::FileNode(number) => {
                if due {
                    self.count_fault();
                    return Err(FolderFault::Failed);
                }
                let node = &self.nodes[number];
                Ok(read_from(node.bytes(), start, out))
            }
            _ => Err(FolderFault::Refused),
        }
    }
}
