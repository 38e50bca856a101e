//! What one directory holds: its items, and what is found in it.
ghost use Rattle.std.specs.Prelude.{◌≡◌, ◌++◌, ◌∷◌, [], ◌&&◌, ◌||◌, ℕ, List, Contains, Some, IfOk, OnOk};
ghost use Rattle.folder_spec.specs.Listing.{Item};
ghost use Rattle.folder_spec.specs.Path.{child};
ghost use Rattle.folder_spec.specs.Seen.{IfSeen, under};
ghost use Rattle.folder_spec.specs.View as view;
ghost use Rattle.folder_spec.specs.View.{View, kind_found};
ghost use Rattle.folder_model.specs.Answers.{CountsAbove};
ghost use Rattle.vault_read.specs.Opened.{FitsKey};
ghost use Rattle.vault_spec.specs.Findings.{IsEntryOf, number_of};
ghost use Rattle.vault_spec.specs.Format as spec;
ghost use Rattle.vault_spec.specs.Format.{is_file};
ghost use Rattle.vault_spec.specs.Vault.{format_of};
ghost use Rattle.vault_walk.specs.Names.{is_fixed_by, is_full_by};
ghost use Rattle.vault_walk.specs.Report.{found_by, idle_by, lack_by, leaf_found, leaf_members, FitMembers, HasAdded, HasReported, IsLeadOf, IsMainOf, IsNamed, IsReport, IsReportOf, IsSideOf, FitsLead, IsEntryIn};
ghost use Rattle.vault_walk.specs.declared.report.What.TheVariants as what;

use crate::entries::entries_at;
use crate::found::Found;
use crate::inside::found_inside;
use crate::names::{entry_of_full, is_fixed, is_full, number_of, unnamed};
use folder_model::{Entry, FPath, Folder, Kind};
use folder_spec::FolderFault;
use plain_tree::Name;
use std::alloc::{AllocError, Global};
use vault_read::items::CONTENT_FILE;
use vault_read::{
    Directory, EntryItem, NameAt, Vault, VaultKind, folder_of, item_of_kind, key_at, kind_under,
    name_at,
};
use vault_spec::Finding;

/// Where a directory item leads: nowhere without a key; to the directory of its key, whose folder isn't there; or to that directory.
#[derive(Drop)]
pub(crate) enum Lead {
    NoKey,
    NoFolder(Directory),
    To(Directory),
}

/// What an item is.
#[derive(Drop)]
pub(crate) enum What {
    File,
    Dir(Lead),
}

/// An item of a directory: its name, its place, and what it is.
#[derive(Drop)]
pub(crate) struct Member {
    pub(crate) name: Name,
    pub(crate) at: FPath,
    pub(crate) what: What,
}

/// What one directory holds.
#[derive(Drop)]
pub(crate) struct Report {
    pub(crate) members: Vec<Member>,
    pub(crate) found: Vec<Found>,
}

// What a directory holds.
pub(crate) fn report_of<F: Folder>(
    alloc: Global,
    folder: &mut F,
    vault: &Vault,
    dir: &Directory,
) -> Result<Report, FolderFault>
    requires { FitsKey vault.now.vault dir.now.key }
    ensures told { F.told folder.new ≡ F.told folder.old }
    ensures report { IfOk result (λ report. IfSeen (F.told folder.old) (λ v. IsReport (format_of vault.now.vault) (under vault.now.root v) dir.now report)) }
    ensures fits { IfOk result (λ report. FitMembers vault.now.vault report.members.items) }
    ensures counts { CountsAbove (F.faults folder.old) (F.faults folder.new) result }
{
    let entries = entries_at(alloc, folder, vault.root(), &dir.folder)?;
    let report = reports_of(alloc, folder, vault, dir, entries.as_slice())?;
    Ok(report)
}

// What these entries of a directory's folder are.
fn reports_of<F: Folder>(
    alloc: Global,
    folder: &mut F,
    vault: &Vault,
    dir: &Directory,
    entries: &[Entry],
) -> Result<Report, FolderFault>
    requires fits { FitsKey vault.now.vault dir.now.key }
    requires listed { IfSeen (F.told folder.old) (λ v. (entry : Item) → Contains entries.now entry → IsEntryIn (under vault.now.root v) dir.now entry) }
    ensures told { F.told folder.new ≡ F.told folder.old }
    ensures report { IfOk result (λ report. IfSeen (F.told folder.old) (λ v. HasReported (format_of vault.now.vault) (under vault.now.root v) dir.now entries.now report)) }
    ensures fits { IfOk result (λ report. FitMembers vault.now.vault report.members.items) }
    ensures counts { CountsAbove (F.faults folder.old) (F.faults folder.new) result }
{
    let mut report = Report {
        members: Vec::new(alloc),
        found: Vec::new(alloc),
    };
    for entry in entries {
        add_entry(alloc, folder, vault, dir, entry, &mut report)?;
    }
    Ok(report)
}

// Adds what one entry of a directory's folder is.
fn add_entry<F: Folder>(
    alloc: Global,
    folder: &mut F,
    vault: &Vault,
    dir: &Directory,
    entry: &Entry,
    report: &mut Report,
) -> Result<(), FolderFault>
    requires fits { FitsKey vault.now.vault dir.now.key }
    requires listed { IfSeen (F.told folder.old) (λ v. IsEntryIn (under vault.now.root v) dir.now entry.now) }
    ensures told { F.told folder.new ≡ F.told folder.old }
    ensures report { OnOk result (IfSeen (F.told folder.old) (λ v. HasAdded (IsReportOf (format_of vault.now.vault) (under vault.now.root v) dir.now entry.now.name) report.old report.new)) }
    ensures fits { OnOk result (FitMembers vault.now.vault report.old.members.items → FitMembers vault.now.vault report.new.members.items) }
    ensures counts { CountsAbove (F.faults folder.old) (F.faults folder.new) result }
{
    let at = dir.folder.child(entry.name.as_str())?;
    let side = side_of(alloc, folder, vault, dir, entry)?;
    add_found(&mut report.found, &at, side)?;
    add_main(alloc, folder, vault, dir, entry, at, report)
}

// Adds what one entry at a path is beside being a long-name file.
fn add_main<F: Folder>(
    alloc: Global,
    folder: &mut F,
    vault: &Vault,
    dir: &Directory,
    entry: &Entry,
    at: FPath,
    report: &mut Report,
) -> Result<(), FolderFault>
    requires fits { FitsKey vault.now.vault dir.now.key }
    requires place { at ≡ child dir.now.folder entry.now.name }
    requires listed { IfSeen (F.told folder.old) (λ v. IsEntryIn (under vault.now.root v) dir.now entry.now) }
    ensures told { F.told folder.new ≡ F.told folder.old }
    ensures report { OnOk result (IfSeen (F.told folder.old) (λ v. HasAdded (IsMainOf (format_of vault.now.vault) (under vault.now.root v) dir.now entry.now.name) report.old report.new)) }
    ensures fits { OnOk result (FitMembers vault.now.vault report.old.members.items → FitMembers vault.now.vault report.new.members.items) }
    ensures counts { CountsAbove (F.faults folder.old) (F.faults folder.new) result }
{
    match name_at(alloc, folder, vault, dir, entry.name.as_str())? {
        Some(named) => add_named(alloc, folder, vault, at, entry.kind, named, report),
        None => Ok(add_unnamed(vault, dir, entry, &at, report)?),
    }
}

// Adds a finding at a path, if there is one.
pub(crate) fn add_found(
    found: &mut Vec<Found>,
    at: &FPath,
    finding: Option<Finding>,
) -> Result<(), AllocError>
    ensures { OnOk result (found.new.items ≡ found.old.items ++ found_by at.now finding) }
{
    if let Some(finding) = finding {
        found.push(Found {
            at: at.copy()?,
            number: number_of(finding),
        })?;
    }
    Ok(())
}

// Adds an item, and what is found in its own folder.
fn add_member(member: Member, mut found: Vec<Found>, report: &mut Report) -> Result<(), AllocError>
    ensures members { OnOk result (report.new.members.items ≡ report.old.members.items ++ member ∷ []) }
    ensures found { OnOk result (report.new.found.items ≡ report.old.found.items ++ found.items) }
{
    report.members.push(member)?;
    report.found.append(&mut found)
}

// Adds a file, and what is found in its own folder.
fn add_file(name: Name, at: FPath, found: Vec<Found>, report: &mut Report) -> Result<(), AllocError>
    ensures members { OnOk result (report.new.members.items ≡ report.old.members.items ++ (record { name = name; at = at; what = what.File }) ∷ []) }
    ensures found { OnOk result (report.new.found.items ≡ report.old.found.items ++ found.items) }
{
    let what = What::File;
    add_member(Member { name, at, what }, found, report)
}

// Adds what the entry of a name is, by the kind of what stands there.
fn add_named<F: Folder>(
    alloc: Global,
    folder: &mut F,
    vault: &Vault,
    at: FPath,
    kind: Kind,
    named: NameAt,
    report: &mut Report,
) -> Result<(), FolderFault>
    requires { IfSeen (F.told folder.old) (λ v. kind ≡ kind_found (under vault.now.root v at)) }
    ensures told { F.told folder.new ≡ F.told folder.old }
    ensures report { OnOk result (IfSeen (F.told folder.old) (λ v. (dir : spec.Directory) (entry : Item) → at ≡ child dir.folder entry.name
        → IsEntryIn (under vault.now.root v) dir entry → IsNamed (format_of vault.now.vault) (under vault.now.root v) dir entry.name named
        → HasAdded (IsMainOf (format_of vault.now.vault) (under vault.now.root v) dir entry.name) report.old report.new)) }
    ensures fits { OnOk result (FitMembers vault.now.vault report.old.members.items → FitMembers vault.now.vault report.new.members.items) }
    ensures counts { CountsAbove (F.faults folder.old) (F.faults folder.new) result }
{
    let NameAt { name, long } = named;
    let item = item_of_kind(folder, vault, &at, kind, long)?;
    let found = found_inside(alloc, folder, vault, &at, kind, long, item)?;
    match item {
        EntryItem::Directory => {
            let lead = lead_at(alloc, folder, vault, &at)?;
            Ok(add_directory(at, name, lead, found, report)?)
        }
        _ => Ok(add_leaf(at, name, item, found, report)?),
    }
}

// Adds the item of a name that is no directory, with what is found in its own folder.
fn add_leaf(
    at: FPath,
    name: Name,
    item: EntryItem,
    found: Vec<Found>,
    report: &mut Report,
) -> Result<(), AllocError>
    ensures members { OnOk result (report.new.members.items ≡ report.old.members.items ++ leaf_members at name item) }
    ensures found { OnOk result (report.new.found.items ≡ report.old.found.items ++ leaf_found at item found.items) }
{
    match item {
        EntryItem::EntryFile => add_file(name, at, found, report),
        EntryItem::ContentFile => add_file(name, at.child(CONTENT_FILE)?, found, report),
        EntryItem::NoItem(finding) => add_found(&mut report.found, &at, Some(finding)),
        EntryItem::Nothing | EntryItem::Directory => Ok(()),
    }
}

// Adds the directory item of a name, by where it leads, with what is found in its own folder.
fn add_directory(
    at: FPath,
    name: Name,
    lead: Lead,
    mut found: Vec<Found>,
    report: &mut Report,
) -> Result<(), AllocError>
    ensures members { OnOk result (report.new.members.items ≡ report.old.members.items ++ (record { name = name; at = at; what = what.Dir lead }) ∷ []) }
    ensures found { OnOk result (report.new.found.items ≡ report.old.found.items ++ (found.items ++ found_by at (lack_by lead))) }
{
    add_found(&mut found, &at, lack_of(&lead))?;
    let what = What::Dir(lead);
    add_member(Member { name, at, what }, found, report)
}

// The finding of a directory item without its key or its folder.
fn lack_of(lead: &Lead) -> Option<Finding>
    ensures { result ≡ lack_by lead.now }
{
    match lead {
        Lead::NoKey => Some(Finding::NoDirKey),
        Lead::NoFolder(_) => Some(Finding::NoFolder),
        Lead::To(_) => None,
    }
}

// Where the directory item leads whose entry is at a path.
fn lead_at<F: Folder>(
    alloc: Global,
    folder: &mut F,
    vault: &Vault,
    at: &FPath,
) -> Result<Lead, FolderFault>
    ensures told { F.told folder.new ≡ F.told folder.old }
    ensures lead { IfOk result (λ lead. IfSeen (F.told folder.old) (λ v. IsLeadOf (format_of vault.now.vault) (under vault.now.root v) at.now lead)) }
    ensures fits { IfOk result (λ lead. FitsLead vault.now.vault lead) }
    ensures counts { CountsAbove (F.faults folder.old) (F.faults folder.new) result }
{
    let Some(key) = key_at(alloc, folder, vault, at)? else {
        return Ok(Lead::NoKey);
    };
    let place = folder_of(alloc, vault, at, key.as_slice())?;
    let kind = kind_under(folder, vault.root(), &place)?;
    let dir = Directory { folder: place, key };
    match kind {
        Kind::Dir => Ok(Lead::To(dir)),
        _ => Ok(Lead::NoFolder(dir)),
    }
}

// Adds what an entry at a path is that is of no name: it belongs there as a file of its name, or is found.
fn add_unnamed(
    vault: &Vault,
    dir: &Directory,
    entry: &Entry,
    at: &FPath,
    report: &mut Report,
) -> Result<(), AllocError>
    ensures report { OnOk result ((w : View) → at.now ≡ child dir.now.folder entry.now.name → IsEntryIn w dir.now entry.now
        → ((name : List ℕ) → ¬ IsEntryOf (format_of vault.now.vault) w dir.now entry.now.name name)
        → HasAdded (IsMainOf (format_of vault.now.vault) w dir.now entry.now.name) report.old report.new) }
    ensures members { report.new.members.items ≡ report.old.members.items }
{
    let kind = vault.kind();
    let name = entry.name.as_str();
    if belongs(kind, &dir.folder, name, entry.kind) {
        return Ok(());
    }
    let finding = unnamed(kind, name, entry.kind);
    add_found(&mut report.found, at, Some(finding))
}

// Whether it is a file of a name that belongs to a folder of entries, or of a long-name file's.
fn belongs(vault: VaultKind, folder: &FPath, name: &str, kind: Kind) -> bool
    ensures { (there : view.Found) → kind ≡ kind_found there → result ≡ is_file there && (is_fixed_by vault folder.now name.now || is_full_by vault name.now) }
{
    match kind {
        Kind::File => is_fixed(vault, folder, name) || is_full(vault, name),
        Kind::Missing => false,
        Kind::Dir => false,
        Kind::Other => false,
    }
}

// The finding of a long-name file: it hasn't the text of an entry, or the entry isn't there.
fn side_of<F: Folder>(
    alloc: Global,
    folder: &mut F,
    vault: &Vault,
    dir: &Directory,
    file: &Entry,
) -> Result<Option<Finding>, FolderFault>
    requires { FitsKey vault.now.vault dir.now.key }
    ensures told { F.told folder.new ≡ F.told folder.old }
    ensures finding { IfOk result (λ finding. IfSeen (F.told folder.old) (λ v. IsEntryIn (under vault.now.root v) dir.now file.now
        → IsSideOf (format_of vault.now.vault) (under vault.now.root v) dir.now file.now finding)) }
    ensures counts { CountsAbove (F.faults folder.old) (F.faults folder.new) result }
{
    let Kind::File = file.kind else {
        return Ok(None);
    };
    let Some(entry) = entry_of_full(vault.kind(), file.name.as_str()) else {
        return Ok(None);
    };
    let Some(named) = name_at(alloc, folder, vault, dir, entry)? else {
        return Ok(Some(Finding::OrphanLongName));
    };
    if !named.long {
        return Ok(Some(Finding::OrphanLongName));
    }
    let at = dir.folder.child(entry)?;
    let kind = kind_under(folder, vault.root(), &at)?;
    Ok(idle_by(kind))
}

// The finding of a long-name file with its right text, by what stands at its entry.
fn idle_by(kind: Kind) -> Option<Finding>
    ensures { (there : view.Found) → kind ≡ kind_found there → result ≡ idle_by there }
{
    match kind {
        Kind::Missing => Some(Finding::EmptyOrphan),
        Kind::Dir => None,
        Kind::File => None,
        Kind::Other => None,
    }
}
