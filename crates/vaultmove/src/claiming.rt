//! What a run claims of the machine's folder before the command begins.
ghost use Rattle.std.specs.Prelude.{◌≡◌, ◌≢◌, ◌++◌, ◌⊎◌, [], IfErr, IfOk, IsSome, IsTrue, None, OnOk, option_map};
ghost use Rattle.command_answers.specs.declared.answer.Answer.TheVariants.{OutOfMemory};
ghost use Rattle.vaultmove.specs.Claims.{AsksOrIsBarred, HasAsked, claimed, claims_of, hold_of, is_of_journal, is_read, names_roots, only_reads, path_of, place_of};

use command_answers::Answer;
use command_words::Request;
use command_words::rows::{Claim, Place};
use folder_model::{FPath, FolderFault};
use host_places::{Hold, Wanted};
use host_ports::HostFolder;
use move_journal::{Journal, JournalFault, read};
use std::alloc::{AllocError, Global};

/// Claims what the command may change, or what it checks. Where a claim isn't had, or what has to be renamed would cross from one file system
/// to another, or gocryptfs has a vault mounted that is to be changed or moved, the folder changes nothing any more, and the command ends
/// where it would change something. One that claims only to read reads nothing then.
#[tactic(auto, using(crate::proofs::Claims::reads_asked))]
pub fn claim(alloc: Global, request: &Request, folder: &mut HostFolder) -> Result<(), Answer>
    ensures nothing { request.now.row.claims ≡ [] → folder.new ≡ folder.old }
    ensures asks { OnOk result (AsksOrIsBarred request.now folder.new) }
    ensures reads { OnOk result (request.now.row.claims ≢ [] → IsTrue (only_reads request.now.row.claims) → IsTrue folder.new.barred.changes → IsTrue folder.new.barred.reads) }
    ensures refused { IfErr result (λ answer. answer ≡ OutOfMemory) }
{
    if request.row().claims.is_empty() {
        return Ok(());
    }
    claim_those(alloc, request, &None, folder)?;
    if only_reads(request) {
        folder.bar_reads_where_changes_are();
        return Ok(());
    }
    claim_to_change(alloc, request, folder)
}

// Whether all that a command claims is a value of the words, beside runs that read it too.
fn only_reads(request: &Request) -> bool
    ensures { result ≡ only_reads request.now.row.claims }
{
    let claims = request.row().claims;
    claims.iter().all(|claim| is_read(*claim))
}

fn is_read(claim: Claim) -> bool
    ensures { result ≡ is_read claim }
{
    match claim {
        Claim::Shared(Place::Value(_)) => true,
        Claim::Shared(Place::JournalSource | Place::JournalTarget) | Claim::Alone(_) => false,
    }
}

// The rest of what a command that changes something claims, and the tests of it.
fn claim_to_change(alloc: Global, request: &Request, folder: &mut HostFolder) -> Result<(), Answer>
    requires asked { HasAsked request.now None folder.old ⊎ IsTrue folder.old.barred.changes }
    ensures asks { OnOk result (AsksOrIsBarred request.now folder.new) }
    ensures refused { IfErr result (λ answer. answer ≡ OutOfMemory) }
{
    let journal = if names_roots(request) {
        claim_by_journal(alloc, request, folder)?
    } else {
        None
    };
    test_claims(request, &journal, folder);
    Ok(())
}

// Whether what a command claims is named by a journal too.
fn names_roots(request: &Request) -> bool
    ensures { result ≡ names_roots request.now.row.claims }
{
    let claims = request.row().claims;
    claims.iter().any(|claim| is_of_journal(place_of(*claim)))
}

// Nothing that is claimed may be mounted, or on two file systems where it has to be on one.
fn test_claims(request: &Request, journal: &Option<Journal>, folder: &mut HostFolder)
    ensures asked { folder.new.asked ≡ folder.old.asked }
    ensures barred { IsTrue folder.old.barred.changes → IsTrue folder.new.barred.changes }
{
    if let Some((one, other)) = request.row().one_file_system {
        if let Some(one) = path_of(one, request, journal) {
            if let Some(other) = path_of(other, request, journal) {
                folder.keep_on_one_file_system(one, other);
            }
        }
    }
    folder.keep_unmounted();
}

/// Claims the roots that the journal in a command's work folder names. Where none of use is there, nothing is changed any more: one that
/// comes later names roots that this run hasn't claimed.
pub fn claim_by_journal(
    alloc: Global,
    request: &Request,
    folder: &mut HostFolder,
) -> Result<Option<Journal>, Answer>
    ensures barred { IfOk result (λ journal. journal ≡ None → IsTrue folder.new.barred.changes) }
    ensures asks { IfOk result (λ journal. HasAsked request.now journal folder.new ⊎ IsTrue folder.new.barred.changes) }
    ensures refused { IfErr result (λ answer. answer ≡ OutOfMemory) }
{
    let work = match request.folder(0) {
        Some(work) => work.copy()?,
        None => FPath::base(alloc),
    };
    let journal = journal_at(alloc, &work, folder)?;
    if journal.is_some() {
        claim_those(alloc, request, &journal, folder)?;
    } else {
        folder.bar_changes(&work);
    }
    Ok(journal)
}

// Claims values of the words, and the roots that the journal names. That another run holds one is left to the command to meet.
fn claim_those(
    alloc: Global,
    request: &Request,
    journal: &Option<Journal>,
    folder: &mut HostFolder,
) -> Result<(), Answer>
    ensures asks { OnOk result (HasAsked request.now journal.now folder.new ⊎ IsTrue folder.new.barred.changes) }
    ensures refused { IfErr result (λ answer. answer ≡ OutOfMemory) }
{
    let mut wanted = wanted_of(alloc, request, journal)?;
    match folder.claim(wanted.as_mut_slice()) {
        Err(FolderFault::NoMemory) => Err(Answer::OutOfMemory),
        _ => Ok(()),
    }
}

fn wanted_of(
    alloc: Global,
    request: &Request,
    journal: &Option<Journal>,
) -> Result<Vec<Wanted>, AllocError>
    ensures { IfOk result (λ wanted. wanted.items ≡ claims_of request.now journal.now) }
{
    let mut wanted = Vec::new(alloc);
    for claim in request.row().claims {
        want(&mut wanted, request, journal, *claim)?;
    }
    Ok(wanted)
}

fn want(
    wanted: &mut Vec<Wanted>,
    request: &Request,
    journal: &Option<Journal>,
    claim: Claim,
) -> Result<(), AllocError>
    ensures { OnOk result (wanted.new.items ≡ wanted.old.items ++ claimed request.now journal.now claim) }
{
    if let Some(at) = path_of(place_of(claim), request, journal) {
        let at = at.copy()?;
        wanted.push(Wanted {
            at,
            hold: hold_of(claim),
        })?;
    }
    Ok(())
}

fn place_of(claim: Claim) -> Place
    ensures { result ≡ place_of claim }
{
    match claim {
        Claim::Shared(place) => place,
        Claim::Alone(place) => place,
    }
}

// Whether other runs may hold what is claimed too.
fn hold_of(claim: Claim) -> Hold
    ensures { result ≡ hold_of claim }
{
    match claim {
        Claim::Shared(_) => Hold::Shared,
        Claim::Alone(_) => Hold::Alone,
    }
}

fn is_of_journal(place: Place) -> bool
    ensures { result ≡ is_of_journal place }
{
    match place {
        Place::Value(_) => false,
        Place::JournalSource | Place::JournalTarget => true,
    }
}

fn path_of<'a>(
    place: Place,
    request: &'a Request,
    journal: &'a Option<Journal>,
) -> Option<&'a FPath>
    ensures { option_map (λ path. path.now) result ≡ path_of place request.now journal.now }
{
    match (place, journal) {
        (Place::Value(number), _) => request.folder(number),
        (Place::JournalSource, Some(journal)) => Some(&journal.source),
        (Place::JournalTarget, Some(journal)) => Some(&journal.target),
        _ => None,
    }
}

// Reads the journal in a work folder, where one of use is there.
fn journal_at(
    alloc: Global,
    work: &FPath,
    folder: &mut HostFolder,
) -> Result<Option<Journal>, Answer>
    ensures { IfErr result (λ answer. answer ≡ OutOfMemory) }
{
    match read(alloc, folder, work) {
        Ok(journal) => Ok(Some(journal)),
        Err(JournalFault::NoMemory) => Err(Answer::OutOfMemory),
        Err(_) => Ok(None),
    }
}
