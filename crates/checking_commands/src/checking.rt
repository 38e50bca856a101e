//! `fsck`: tells what is found in a vault.
ghost use Rattle.std.specs.Prelude.{◌≡◌, ◌++◌, ◌∷◌, [], Err, IfErr, IfOk, IsTrue, OnOk, ⊤, string_bytes};
ghost use Rattle.std.specs.Io.KnownBytes.{Keeps};
ghost use Rattle.folder_spec.specs.View.{View};
ghost use Rattle.folder_spec.specs.Seen.{IfSeen, IsSeen};
ghost use Rattle.port_model.specs.Counts.{CountRose};
ghost use Rattle.std.specs.List.{flat_map};
ghost use Rattle.open_for_reading.specs.Carrying.{CarriesOut};
ghost use Rattle.open_for_reading.specs.World.{World};
ghost use Rattle.checking_commands.specs.Fsck.{ChecksVault, ShowsReport, fault_part, is_of_checking};
ghost use Rattle.checking_commands.specs.Lines.{answer_to_found, found_line, noted_line, told_text};
ghost use Rattle.open_for_reading.specs.Refusing.{Unless};
ghost use Rattle.open_for_reading.specs.Shown.{Follows, is_of_opening, refused};
ghost use Rattle.command_words.specs.declared.commands.Command.TheVariants.{Fsck};

use crate::faults::answer_to_check;
use chunk_files::ChunkFault;
use command_answers::{Answer, finding_name, shown_folder};
use command_words::commands::Checking;
use folder_model::{FPath, Folder};
use open_for_reading::open;
use port_model::{Randoms, Sink, Source};
use std::alloc::{AllocError, Global};
use vault_check::{Report, check};
use vault_read::laws::roots_have_one_answer;
use vault_walk::Finding;

/// Writes the findings of a vault, and then its notes, one a line, once all are known.
pub fn fsck<F: Folder, R: Randoms, I: Source, O: Sink>(
    alloc: Global,
    target: &Checking,
    folder: &mut F,
    random: &mut R,
    input: &mut I,
    out: &mut O,
) -> Answer
    ensures { CarriesOut (Fsck target.now) (ChecksVault target.now) (λ v. ⊤) result
        (record { told = F.told folder.old; left = I.left input.old; ended = I.ended input.old; taken = O.taken out.old; random = R.left random.old })
        (record { told = F.told folder.new; left = I.left input.new; ended = I.ended input.new; taken = O.taken out.new; random = R.left random.new })
        (CountRose (F.faults folder.old) (F.faults folder.new)) (CountRose (I.faults input.old) (I.faults input.new))
        (CountRose (O.faults out.old) (O.faults out.new)) (CountRose (R.faults random.old) (R.faults random.new)) }
{
    roots_have_one_answer();
    tell(alloc, target, folder, out)
}

// Writes them as they are told, and answers by them.
fn tell<F: Folder, O: Sink>(alloc: Global, target: &Checking, folder: &mut F, out: &mut O) -> Answer
    ensures told { F.told folder.new ≡ F.told folder.old }
    ensures own { IsTrue (is_of_checking result) }
    ensures follows { IfSeen (F.told folder.old) (λ v. Follows (ShowsReport target.now v) result (O.taken out.old) (O.taken out.new)) }
    ensures quiet { result ≡ Answer.FolderFault → Keeps (O.taken out.old) (O.taken out.new) }
    ensures folder_fault { result ≡ Answer.FolderFault → CountRose (F.faults folder.old) (F.faults folder.new) }
    ensures output_fault { result ≡ Answer.OutputFault → CountRose (O.faults out.old) (O.faults out.new) }
{
    let report = match checked(alloc, target, folder) {
        Ok(report) => report,
        Err(answer) => return answer,
    };
    let text = match text_of(alloc, &report) {
        Ok(text) => text,
        Err(_) => return Answer::OutOfMemory,
    };
    match out.put(text.as_bytes()) {
        Ok(()) => answer_to(report.findings.as_slice()),
        Err(_) => Answer::OutputFault,
    }
}

// What a check of the vault tells.
fn checked<F: Folder>(alloc: Global, target: &Checking, folder: &mut F) -> Result<Report, Answer>
    ensures told { F.told folder.new ≡ F.told folder.old }
    ensures report { IfOk result (λ report. (v : View) → IsSeen (F.told folder.old) v
        → ShowsReport target.now v (record { pieces = told_text report ∷ []; answer = answer_to_found report.findings.items })) }
    ensures refused { IfErr result (λ answer. IfSeen (F.told folder.old) (λ v. Unless answer (ShowsReport target.now v (refused answer)))) }
    ensures failed { result ≡ Err Answer.FolderFault → CountRose (F.faults folder.old) (F.faults folder.new) }
    ensures own { IfErr result (λ answer. IsTrue (is_of_opening answer)) }
{
    let vault = open(alloc, folder, &target.vault, &target.pass)?;
    match check(alloc, folder, &vault) {
        Ok(report) => Ok(report),
        Err(fault) => Err(answer_to_check(fault)),
    }
}

// `Findings` where there are any.
fn answer_to(findings: &[Finding]) -> Answer
    ensures { result ≡ answer_to_found findings.now }
{
    match findings {
        [] => Answer::Done,
        [_, ..] => Answer::Findings,
    }
}

// A line for each finding, and then for each note.
fn text_of(alloc: Global, report: &Report) -> Result<String, AllocError>
    ensures { IfOk result (λ text. string_bytes text ≡ told_text report.now) }
{
    let mut text = findings_text(alloc, report.findings.as_slice())?;
    text.push_str(notes_text(alloc, report.notes.as_slice())?.as_str())?;
    Ok(text)
}

fn findings_text(alloc: Global, findings: &[Finding]) -> Result<String, AllocError>
    ensures { IfOk result (λ text. string_bytes text ≡ flat_map found_line findings.now) }
{
    let mut text = String::new(alloc);
    for finding in findings {
        push_finding(alloc, &mut text, finding)?;
    }
    Ok(text)
}

fn notes_text(alloc: Global, notes: &[FPath]) -> Result<String, AllocError>
    ensures { IfOk result (λ text. string_bytes text ≡ flat_map noted_line notes.now) }
{
    let mut text = String::new(alloc);
    for note in notes {
        push_note(alloc, &mut text, note)?;
    }
    Ok(text)
}

// Adds a finding's line.
fn push_finding(alloc: Global, text: &mut String, finding: &Finding) -> Result<(), AllocError>
    ensures { OnOk result (string_bytes text.new ≡ string_bytes text.old ++ found_line finding.now) }
{
    let number = finding.number;
    let name = finding_name(number);
    text.push_str(format!(in alloc; "{number} {name} ")?.as_str())?;
    text.push_str(shown_folder(alloc, &finding.at)?.as_str())?;
    push_fault(alloc, text, &finding.fault)?;
    text.push('\n')
}

// Adds the fault of a damaged content.
fn push_fault(
    alloc: Global,
    text: &mut String,
    fault: &Option<ChunkFault>,
) -> Result<(), AllocError>
    ensures { OnOk result (string_bytes text.new ≡ string_bytes text.old ++ fault_part fault.now) }
{
    match fault {
        Some(fault) => text.push_str(format!(in alloc; " {fault}")?.as_str()),
        None => Ok(()),
    }
}

// Adds a note's line.
fn push_note(alloc: Global, text: &mut String, note: &FPath) -> Result<(), AllocError>
    ensures { OnOk result (string_bytes text.new ≡ string_bytes text.old ++ noted_line note.now) }
{
    text.push_str("14 EmptyOrphan ")?;
    text.push_str(shown_folder(alloc, note)?.as_str())?;
    text.push('\n')
}
