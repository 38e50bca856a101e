//! A walk through a vault by levels: the directories in one step after those in none, and so on.
ghost use Rattle.std.specs.Prelude.{◌≡◌, ◌+◌, ◌<◌, ◌≤◌, ◌++◌, ◌∷◌, [], ℕ, suc, List, length, nat_le, IfOk, OnOk};
ghost use Rattle.folder_spec.specs.Seen.{IfSeen, IsSeen, under};
ghost use Rattle.folder_spec.specs.View.{View};
ghost use Rattle.vault_read.specs.Opened.{FitsKey};
ghost use Rattle.vault_read.specs.Stands.{EntersFit, FitsDirectory, standing_of};
ghost use Rattle.vault_spec.specs.Findings.{number_of};
ghost use Rattle.vault_spec.specs.Format.{Format};
ghost use Rattle.vault_spec.specs.Standing as stands;
ghost use Rattle.vault_spec.specs.Standing.{root_of};
ghost use Rattle.vault_spec.specs.Vault as spec;
ghost use Rattle.vault_spec.specs.Vault.{format_of};
ghost use Rattle.vault_walk.specs.Levels.{finding_of, item_by, target_at, targets_by, targets_to, ways_by, ways_to, Answers, HasEnded, HasGained, HasGainedMembers, HasSettled, HasStayed, HasVisited, HasWalked, IsPastLimit, WaysFit};
ghost use Rattle.vault_walk.specs.Report.{IsReport};
ghost use Rattle.vault_walk.specs.Survey.{depth_limit, item_limit, HasTooMany, IsTooDeep};
ghost use Rattle.vault_walk.specs.Surveyed.{IsOnlyTooDeep, IsWithin};
ghost use Rattle.vault_walk.specs.Walking as walking;

use crate::fault::WalkFault;
use crate::found::Found;
use crate::key::{Node, node_of};
use crate::names::number_of;
use crate::plan::PlanItem;
use crate::report::{Lead, Member, Report, What, report_of};
use crate::twice::Target;
use folder_model::{FPath, Folder};
use folder_spec::FolderFault;
use plain_tree::{NodeKind, PlainPath};
use std::alloc::{AllocError, Global};
use std::collections::BTreeSet;
use std::marker::Model;
use vault_faults::Limit;
use vault_read::{Directory, Standing, Vault, root_standing};
use vault_spec::laws::what_stands_is_found_step_by_step;
use vault_spec::{Finding, Lack};

/// The most steps from the root that a plain path has.
const MAX_DEPTH: usize = 64;

/// The most items that a vault has.
const MAX_ITEMS: usize = 200_000;

/// A directory with a path to it.
#[derive(Drop)]
pub(crate) struct Way {
    pub(crate) path: PlainPath,
    pub(crate) dir: Directory,
}

impl Model for Way {
    ghost use Rattle.vault_walk.specs.Walking.{Way};

    ghost Value = { Way };

    ghost view = { λ way. record { path = way.path; dir = way.dir } };
}

/// What a walk has met: the directories that were visited, their items, what was found, the directory items with a key, and the
/// directories that were visited or wait to be.
#[derive(Drop)]
pub(crate) struct Walk {
    pub(crate) visits: Vec<Way>,
    pub(crate) items: Vec<PlanItem>,
    pub(crate) found: Vec<Found>,
    pub(crate) targets: Vec<Target>,
    seen: BTreeSet<Node>,
}

// Walks through a whole vault.
pub(crate) fn walked<F: Folder>(
    alloc: Global,
    folder: &mut F,
    vault: &Vault,
) -> Result<Walk, WalkFault>
    ensures told { F.told folder.new ≡ F.told folder.old }
    ensures walked { IfOk result (λ walk. IfSeen (F.told folder.old) (λ v. HasEnded (format_of vault.now.vault) (under vault.now.root v) walk)) }
    ensures within { IfOk result (λ walk. IfSeen (F.told folder.old) (λ v. IsWithin (format_of vault.now.vault) (under vault.now.root v))) }
    ensures size { IfOk result (λ walk. length walk.items.items ≤ item_limit) }
    ensures answers { Answers (IfSeen (F.told folder.old) (λ v. HasTooMany (format_of vault.now.vault) (under vault.now.root v)))
        (IfSeen (F.told folder.old) (λ v. IsOnlyTooDeep (format_of vault.now.vault) (under vault.now.root v))) (F.faults folder.old) (F.faults folder.new) result }
{
    let root = root_standing(alloc, folder, vault)?;
    let (mut walk, mut waiting) = begun(alloc, root)?;
    for _depth in 0..MAX_DEPTH {
        waiting = walk.next_level(alloc, folder, vault, waiting)?;
    }
    walk.last_level(alloc, folder, vault, waiting)?;
    Ok(walk)
}

// A walk that hasn't visited any directory, with the root that waits, where it can be entered.
fn begun(alloc: Global, root: Standing) -> Result<(Walk, Vec<Way>), AllocError>
    ensures walks { IfOk result (λ both. (f : Format) (v : View) → standing_of root ≡ root_of f v → HasWalked f v 0 both.0 both.1.items) }
    ensures fits { (vault : spec.Vault) → EntersFit vault root → IfOk result (λ both. WaysFit vault both.1.items) }
    ensures size { IfOk result (λ both. both.0.items.items ≡ []) }
{
    match root {
        Standing::Dir(at, directory) => begun_at(alloc, at, directory),
        _ => Ok((Walk::new(alloc), Vec::new(alloc))),
    }
}

// The same for a root that is a directory.
fn begun_at(
    alloc: Global,
    at: FPath,
    directory: Result<Directory, Lack>,
) -> Result<(Walk, Vec<Way>), AllocError>
    ensures walks { IfOk result (λ both. (f : Format) (v : View) → root_of f v ≡ stands.Dir at directory → HasWalked f v 0 both.0 both.1.items) }
    ensures fits { (vault : spec.Vault) → FitsDirectory vault directory → IfOk result (λ both. WaysFit vault both.1.items) }
    ensures size { IfOk result (λ both. both.0.items.items ≡ []) }
{
    let mut walk = Walk::new(alloc);
    let mut waiting = Vec::new(alloc);
    match directory {
        Ok(dir) => {
            walk.wait(alloc, &PlainPath::root(alloc), dir, &mut waiting)?;
            Ok((walk, waiting))
        }
        Err(lack) => {
            walk.add_lack(at, lack)?;
            Ok((walk, waiting))
        }
    }
}

impl Walk {
    fn new(alloc: Global) -> Walk
        ensures visits { result.visits.items ≡ [] }
        ensures items { result.items.items ≡ [] }
        ensures found { result.found.items ≡ [] }
        ensures targets { result.targets.items ≡ [] }
        ensures seen { result.seen.keys ≡ [] }
    {
        Walk {
            visits: Vec::new(alloc),
            items: Vec::new(alloc),
            found: Vec::new(alloc),
            targets: Vec::new(alloc),
            seen: BTreeSet::new(alloc),
        }
    }

    // Notes that the root lacks this.
    fn add_lack(&mut self, at: FPath, lack: Lack) -> Result<(), AllocError>
        ensures others { OnOk result (HasStayed self.old self.new) }
        ensures found { OnOk result (self.new.found.items ≡ self.old.found.items ++ (record { at = at; number = number_of (finding_of lack) }) ∷ []) }
    {
        let number = number_of(finding_of(lack));
        self.found.push(Found { at, number })?;
        Ok(())
    }

    // Visits the directories of a level, and answers those of the next.
    fn next_level<F: Folder>(
        &mut self,
        alloc: Global,
        folder: &mut F,
        vault: &Vault,
        waiting: Vec<Way>,
    ) -> Result<Vec<Way>, WalkFault>
        requires { WaysFit vault.now.vault waiting.items }
        ensures told { F.told folder.new ≡ F.told folder.old }
        ensures walks { IfOk result (λ next. IfSeen (F.told folder.old) (λ v. (steps : ℕ)
            → HasWalked (format_of vault.now.vault) (under vault.now.root v) steps self.old waiting.items → HasWalked (format_of vault.now.vault) (under vault.now.root v) (suc steps) self.new next.items)) }
        ensures fits { IfOk result (λ next. WaysFit vault.now.vault next.items) }
        ensures size { OnOk result (length self.old.items.items ≤ item_limit → length self.new.items.items ≤ item_limit) }
        ensures answers { Answers (IfSeen (F.told folder.old) (λ v. (steps : ℕ) → steps < depth_limit
            → HasWalked (format_of vault.now.vault) (under vault.now.root v) steps self.old waiting.items → HasTooMany (format_of vault.now.vault) (under vault.now.root v)))
            ⊥ (F.faults folder.old) (F.faults folder.new) result }
    {
        what_stands_is_found_step_by_step();
        let mut next = Vec::new(alloc);
        for way in waiting {
            self.visit(alloc, folder, vault, way, &mut next)?;
        }
        Ok(next)
    }

    // Visits a directory. New ones that it leads to wait.
    fn visit<F: Folder>(
        &mut self,
        alloc: Global,
        folder: &mut F,
        vault: &Vault,
        way: Way,
        next: &mut Vec<Way>,
    ) -> Result<(), WalkFault>
        requires { FitsKey vault.now.vault way.dir.key }
        ensures told { F.told folder.new ≡ F.told folder.old }
        ensures visits { OnOk result ((report : Report) × HasVisited self.old self.new way report next.old.items next.new.items
            × (IfSeen (F.told folder.old) (λ v. IsReport (format_of vault.now.vault) (under vault.now.root v) way.dir report))) }
        ensures fits { WaysFit vault.now.vault next.old.items → OnOk result (WaysFit vault.now.vault next.new.items) }
        ensures size { OnOk result (length self.new.items.items ≤ item_limit) }
        ensures answers { Answers ((report : Report) × IsPastLimit self.old report
            × (IfSeen (F.told folder.old) (λ v. IsReport (format_of vault.now.vault) (under vault.now.root v) way.dir report)))
            ⊥ (F.faults folder.old) (F.faults folder.new) result }
    {
        let report = report_of(alloc, folder, vault, &way.dir)?;
        if !self.has_room(report.members.len()) {
            return Err(WalkFault::Limit(Limit::Items));
        }
        Ok(self.keep(alloc, way, report, next)?)
    }

    // Keeps what a directory holds, which was visited, and which directories it leads on to.
    fn keep(
        &mut self,
        alloc: Global,
        way: Way,
        report: Report,
        next: &mut Vec<Way>,
    ) -> Result<(), AllocError>
        ensures { OnOk result (HasVisited self.old self.new way report next.old.items next.new.items) }
    {
        let Report { members, found } = report;
        self.add_members(alloc, &way.path, members, next)?;
        self.settle(way, found)
    }

    // Visits the directories at the limit on depth, which hold no items.
    fn last_level<F: Folder>(
        &mut self,
        alloc: Global,
        folder: &mut F,
        vault: &Vault,
        waiting: Vec<Way>,
    ) -> Result<(), WalkFault>
        requires { WaysFit vault.now.vault waiting.items }
        ensures told { F.told folder.new ≡ F.told folder.old }
        ensures walks { OnOk result ((v : View) → IsSeen (F.told folder.old) v
            → HasWalked (format_of vault.now.vault) (under vault.now.root v) depth_limit self.old waiting.items → HasEnded (format_of vault.now.vault) (under vault.now.root v) self.new) }
        ensures shallow { OnOk result ((v : View) → IsSeen (F.told folder.old) v
            → HasWalked (format_of vault.now.vault) (under vault.now.root v) depth_limit self.old waiting.items → ¬ IsTooDeep (format_of vault.now.vault) (under vault.now.root v)) }
        ensures items { OnOk result (self.new.items.items ≡ self.old.items.items) }
        ensures answers { Answers ⊥ ((v : View) → IsSeen (F.told folder.old) v
            → HasWalked (format_of vault.now.vault) (under vault.now.root v) depth_limit self.old waiting.items → IsTooDeep (format_of vault.now.vault) (under vault.now.root v))
            (F.faults folder.old) (F.faults folder.new) result }
    {
        what_stands_is_found_step_by_step();
        for way in waiting {
            self.visit_last(alloc, folder, vault, way)?;
        }
        Ok(())
    }

    // Visits a directory that holds no items.
    fn visit_last<F: Folder>(
        &mut self,
        alloc: Global,
        folder: &mut F,
        vault: &Vault,
        way: Way,
    ) -> Result<(), WalkFault>
        requires { FitsKey vault.now.vault way.dir.key }
        ensures told { F.told folder.new ≡ F.told folder.old }
        ensures visits { OnOk result ((report : Report) × HasSettled self.old self.new way report.found.items × (report.members.items ≡ [])
            × (IfSeen (F.told folder.old) (λ v. IsReport (format_of vault.now.vault) (under vault.now.root v) way.dir report))) }
        ensures answers { Answers ⊥ ((report : Report) × (0 < length report.members.items)
            × (IfSeen (F.told folder.old) (λ v. IsReport (format_of vault.now.vault) (under vault.now.root v) way.dir report)))
            (F.faults folder.old) (F.faults folder.new) result }
    {
        let report = report_of(alloc, folder, vault, &way.dir)?;
        if !report.members.is_empty() {
            return Err(WalkFault::Limit(Limit::Depth));
        }
        Ok(self.settle(way, report.found)?)
    }

    // Whether so many more items are no more than a vault may have.
    fn has_room(&self, more: usize) -> bool
        ensures { result ≡ nat_le (length self.now.items.items + more) item_limit }
    {
        let count = self.items.len();
        count <= MAX_ITEMS && more <= MAX_ITEMS - count
    }

    // Keeps what was found in a directory, which was visited.
    fn settle(&mut self, way: Way, mut found: Vec<Found>) -> Result<(), AllocError>
        ensures { OnOk result (HasSettled self.old self.new way found.items) }
    {
        self.found.append(&mut found)?;
        self.visits.push(way)?;
        Ok(())
    }

    // Gathers the items of the directory at a path, and which directories they lead on to.
    fn add_members(
        &mut self,
        alloc: Global,
        path: &PlainPath,
        members: Vec<Member>,
        next: &mut Vec<Way>,
    ) -> Result<(), AllocError>
        ensures { OnOk result (HasGainedMembers self.old self.new path.now members.items next.old.items next.new.items) }
    {
        for member in members {
            self.add_member(alloc, path, member, next)?;
        }
        Ok(())
    }

    fn add_member(
        &mut self,
        alloc: Global,
        path: &PlainPath,
        member: Member,
        next: &mut Vec<Way>,
    ) -> Result<(), AllocError>
        ensures { OnOk result (HasGained self.old self.new next.old.items (item_by path.now member ∷ []) (targets_by member) (ways_by path.now member) next.new.items) }
    {
        let Member { name, at, what } = member;
        let path = path.child(&name)?;
        match what {
            What::File => {
                let node = NodeKind::File;
                self.add_item(PlanItem { path, node, at })
            }
            What::Dir(lead) => {
                self.add_lead(alloc, &path, &at, lead, next)?;
                let node = NodeKind::Dir;
                self.add_item(PlanItem { path, node, at })
            }
        }
    }

    fn add_item(&mut self, item: PlanItem) -> Result<(), AllocError>
        ensures { (next : List walking.Way) → OnOk result (HasGained self.old self.new next (item ∷ []) [] [] next) }
    {
        self.items.push(item)?;
        Ok(())
    }

    // Keeps the directory of a directory item. One that is new waits to be visited.
    fn add_lead(
        &mut self,
        alloc: Global,
        path: &PlainPath,
        at: &FPath,
        lead: Lead,
        next: &mut Vec<Way>,
    ) -> Result<(), AllocError>
        ensures { OnOk result (HasGained self.old self.new next.old.items [] (targets_to at.now lead) (ways_to path.now lead) next.new.items) }
    {
        match lead {
            Lead::NoKey => Ok(()),
            Lead::NoFolder(dir) => self.add_target(alloc, at, &dir),
            Lead::To(dir) => {
                self.add_target(alloc, at, &dir)?;
                self.wait(alloc, path, dir, next)
            }
        }
    }

    fn add_target(&mut self, alloc: Global, at: &FPath, dir: &Directory) -> Result<(), AllocError>
        ensures { (next : List walking.Way) → OnOk result (HasGained self.old self.new next [] (target_at at.now dir.now ∷ []) [] next) }
    {
        self.targets.push(Target {
            node: node_of(alloc, dir)?,
            at: at.copy()?,
        })?;
        Ok(())
    }

    // Lets a directory wait that was neither visited nor waits.
    fn wait(
        &mut self,
        alloc: Global,
        path: &PlainPath,
        dir: Directory,
        waiting: &mut Vec<Way>,
    ) -> Result<(), AllocError>
        ensures { OnOk result (HasGained self.old self.new waiting.old.items [] [] ((record { path = path.now; dir = dir }) ∷ []) waiting.new.items) }
    {
        if self.seen.insert(node_of(alloc, &dir)?)? {
            let path = path.copy()?;
            waiting.push(Way { path, dir })?;
        }
        Ok(())
    }
}

// The finding of a directory that lacks this.
fn finding_of(lack: Lack) -> Finding
    ensures { result ≡ finding_of lack }
{
    match lack {
        Lack::NoDirKey => Finding::NoDirKey,
        Lack::NoFolder => Finding::NoFolder,
    }
}
