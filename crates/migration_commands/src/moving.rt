//! What the commands share that lead a migration on.
ghost use Rattle.std.specs.Prelude.{◌≡◌, ◌⊎◌, ◌≤◌, Err, IfErr, IfOk, IsTrue, string_bytes};
ghost use Rattle.folder_spec.specs.Seen.{IfSeen};
ghost use Rattle.port_model.specs.Counts.{CountRose};
ghost use Rattle.open_for_reading.specs.Opening.{IsPhrase};
ghost use Rattle.open_for_reading.specs.Shown.{is_of_opening};
ghost use Rattle.command_answers.specs.Printing.{PrintsText};
ghost use Rattle.migration_commands.specs.Moving.{FailPasses, done_text};
ghost use Rattle.migration_commands.specs.Resume.{IsFoundJournal, root_by};

use command_answers::{Answer, print};
use command_words::commands::{Passes, Resuming};
use folder_model::{FPath, Folder};
use migrate_core::Done;
use migration_sides::Side;
use move_journal::laws::journals_are_read_back;
use move_journal::{Journal, JournalFault, read};
use open_for_reading::read_pass;
use port_model::Sink;
use std::alloc::{AllocError, Global};
use vault_values::Bytes;

/// The passphrases of a migration's vaults.
#[derive(Drop)]
pub(crate) struct Phrases {
    pub(crate) source: Bytes,
    pub(crate) target: Bytes,
}

/// The passphrases in two files.
pub(crate) fn read_passes<F: Folder>(
    alloc: Global,
    folder: &mut F,
    passes: &Passes,
) -> Result<Phrases, Answer>
    ensures told { F.told folder.new ≡ F.told folder.old }
    ensures source { IfOk result (λ phrases. IfSeen (F.told folder.old) (λ v. IsPhrase (v passes.now.source) phrases.source)) }
    ensures target { IfOk result (λ phrases. IfSeen (F.told folder.old) (λ v. IsPhrase (v passes.now.target) phrases.target)) }
    ensures refused { IfErr result (λ answer. IfSeen (F.told folder.old) (λ v. FailPasses passes.now v answer)) }
    ensures own { IfErr result (λ answer. IsTrue (is_of_opening answer)) }
    ensures grows { F.faults folder.old ≤ F.faults folder.new }
    ensures failed { result ≡ Err Answer.FolderFault → CountRose (F.faults folder.old) (F.faults folder.new) }
{
    let source = read_pass(alloc, folder, &passes.source)?;
    let target = read_pass(alloc, folder, &passes.target)?;
    Ok(Phrases { source, target })
}

/// What a command knows that leads on a migration that was begun: the passphrases, and the journal where one is of use.
#[derive(Drop)]
pub(crate) struct Known {
    pub(crate) phrases: Phrases,
    pub(crate) journal: Option<Journal>,
}

/// The passphrases in two files, and the journal in the work folder.
pub(crate) fn learn<F: Folder>(
    alloc: Global,
    folder: &mut F,
    resuming: &Resuming,
) -> Result<Known, Answer>
    ensures told { F.told folder.new ≡ F.told folder.old }
    ensures source { IfOk result (λ known. IfSeen (F.told folder.old) (λ v. IsPhrase (v resuming.now.passes.source) known.phrases.source)) }
    ensures target { IfOk result (λ known. IfSeen (F.told folder.old) (λ v. IsPhrase (v resuming.now.passes.target) known.phrases.target)) }
    ensures found { IfOk result (λ known. IfSeen (F.told folder.old) (λ v. IsFoundJournal resuming.now.work v known.journal)) }
    ensures refused { IfErr result (λ answer. IfSeen (F.told folder.old) (λ v. FailPasses resuming.now.passes v answer)) }
    ensures own { IfErr result (λ answer. IsTrue (is_of_opening answer)) }
    ensures grows { F.faults folder.old ≤ F.faults folder.new }
    ensures failed { result ≡ Err Answer.FolderFault → CountRose (F.faults folder.old) (F.faults folder.new) }
{
    let phrases = read_passes(alloc, folder, &resuming.passes)?;
    let journal = find_journal(alloc, folder, &resuming.work)?;
    Ok(Known { phrases, journal })
}

// The journal, which tells the roots of the vaults; `None` where there is none of use.
fn find_journal<F: Folder>(
    alloc: Global,
    folder: &mut F,
    work: &FPath,
) -> Result<Option<Journal>, Answer>
    ensures told { F.told folder.new ≡ F.told folder.old }
    ensures found { IfOk result (λ found. IfSeen (F.told folder.old) (λ v. IsFoundJournal work.now v found)) }
    ensures cut { IfErr result (λ answer. (answer ≡ Answer.FolderFault) ⊎ (answer ≡ Answer.OutOfMemory)) }
    ensures grows { F.faults folder.old ≤ F.faults folder.new }
    ensures failed { result ≡ Err Answer.FolderFault → CountRose (F.faults folder.old) (F.faults folder.new) }
{
    journals_are_read_back();
    match read(alloc, folder, work) {
        Ok(journal) => Ok(Some(journal)),
        Err(JournalFault::Failed) => Err(Answer::FolderFault),
        Err(JournalFault::NoMemory) => Err(Answer::OutOfMemory),
        Err(JournalFault::NoJournal) => Ok(None),
        Err(JournalFault::BadJournal(_)) => Ok(None),
        Err(JournalFault::TooLarge) => Ok(None),
    }
}

/// Writes what a migration has done.
pub(crate) fn print_done<O: Sink>(alloc: Global, done: &Done, out: &mut O) -> Answer
    ensures prints { PrintsText (done_text done.now) result (O.taken out.old) (O.taken out.new) }
    ensures answers { (result ≡ Answer.Done) ⊎ ((result ≡ Answer.OutputFault) ⊎ (result ≡ Answer.OutOfMemory)) }
    ensures output_fault { result ≡ Answer.OutputFault → CountRose (O.faults out.old) (O.faults out.new) }
{
    match text_of(alloc, done) {
        Ok(text) => print(text.as_str(), out),
        Err(_) => Answer::OutOfMemory,
    }
}

fn text_of(alloc: Global, done: &Done) -> Result<String, AllocError>
    ensures { IfOk result (λ text. string_bytes text ≡ done_text done.now) }
{
    let placed = done.placed;
    let items = done.items;
    let mut text = format!(in alloc; "placed {placed}")?;
    text.push_str(format!(in alloc; ", items {items}")?.as_str())?;
    text.push('\n')?;
    Ok(text)
}

/// The root of the vault on this side, as the journal tells it, or else the work folder.
pub(crate) fn root_by<'a>(
    work: &'a FPath,
    journal: &'a Option<Journal>,
    side: Option<Side>,
) -> &'a FPath
    ensures { result.now ≡ root_by work.now journal.now side }
{
    match (journal, side) {
        (Some(journal), Some(Side::Source)) => &journal.source,
        (Some(journal), Some(Side::Target)) => &journal.target,
        _ => work,
    }
}
