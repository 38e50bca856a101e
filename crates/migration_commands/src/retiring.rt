//! `retire`: removes the source of a finished migration.
ghost use Rattle.std.specs.Prelude.{◌≡◌, ◌⊎◌, ⊤, Ok, Err, IfErr, IfOk, IsTrue, string_bytes};
ghost use Rattle.folder_spec.specs.Seen.{IfSeen};
ghost use Rattle.port_model.specs.Counts.{CountRose};
ghost use Rattle.retire_core.specs.Completing.{CanRetire};
ghost use Rattle.retire_core.specs.Faults.{IsRetireFault};
ghost use Rattle.retire_core.specs.Retiring.{KeepsInOrder};
ghost use Rattle.migration_spec.specs.Guard.{Migration};
ghost use Rattle.command_answers.specs.Printing.{PrintsText};
ghost use Rattle.open_for_reading.specs.Carrying.{CarriesOut};
ghost use Rattle.open_for_reading.specs.World.{World};
ghost use Rattle.migration_answers.specs.Faults.{of_retire};
ghost use Rattle.migration_answers.specs.Stops.{is_of_refusal};
ghost use Rattle.migration_commands.specs.Moving.{KeepsAll};
ghost use Rattle.migration_commands.specs.Resume.{IsResumedFor};
ghost use Rattle.migration_commands.specs.Resume.{root_by};
ghost use Rattle.migration_commands.specs.Retire.{ComesTo, Completes, IsRetired, MayCome, RetiresSource, retired_text, unopened};
ghost use Rattle.command_words.specs.declared.commands.Command.TheVariants.{Retire};

use crate::moving::{learn, root_by};
use command_answers::{Answer, print};
use command_words::commands::Resuming;
use folder_model::{FPath, Folder};
use migration_answers::answer_to_retire;
use migration_sides::Side;
use migration_spec::laws::guarded_migrations_are_safe;
use move_journal::Journal;
use port_model::{Randoms, Sink, Source};
use retire_core::{RetireFault, Retired};
use std::alloc::{AllocError, Global};

/// Removes the source of the migration that the journal tells of, and the work folder, and then writes how many items it had.
pub fn retire<F: Folder, R: Randoms, I: Source, O: Sink>(
    alloc: Global,
    resuming: &Resuming,
    folder: &mut F,
    random: &mut R,
    input: &mut I,
    out: &mut O,
) -> Answer
    ensures { CarriesOut (Retire resuming.now) (RetiresSource resuming.now) (λ v. ⊤) result
        (record { told = F.told folder.old; left = I.left input.old; ended = I.ended input.old; taken = O.taken out.old; random = R.left random.old })
        (record { told = F.told folder.new; left = I.left input.new; ended = I.ended input.new; taken = O.taken out.new; random = R.left random.new })
        (CountRose (F.faults folder.old) (F.faults folder.new)) (CountRose (I.faults input.old) (I.faults input.new))
        (CountRose (O.faults out.old) (O.faults out.new)) (CountRose (R.faults random.old) (R.faults random.new)) }
{
    match remove(alloc, resuming, folder) {
        Ok(retired) => print_retired(alloc, &retired, out),
        Err(answer) => answer,
    }
}

// Reads the passphrases, and removes the source.
fn remove<F: Folder>(alloc: Global, resuming: &Resuming, folder: &mut F) -> Result<Retired, Answer>
    ensures retired { IfOk result (λ retired. IsRetired resuming.now (F.told folder.old) (F.told folder.new) retired) }
    ensures came { IfOk result (λ retired. IfSeen (F.told folder.old) (λ v. ComesTo resuming.now (λ outcome. outcome ≡ Ok retired) (F.told folder.old) (F.told folder.new) v)) }
    ensures stopped { IfErr result (λ answer. IfSeen (F.told folder.old) (λ v. MayCome resuming.now answer (F.told folder.old) (F.told folder.new) v)) }
    ensures keeps { (g : Migration) → g.work ≡ resuming.now.work → KeepsAll g (F.told folder.old) (F.told folder.new) }
    ensures order { KeepsInOrder resuming.now.work (F.told folder.old) (F.told folder.new) }
    ensures completes { IfErr result (λ answer. (g : Migration) → IfSeen (F.told folder.old) (λ v. IsResumedFor g resuming.now v → CanRetire g v → Completes answer)) }
    ensures own { IfErr result (λ answer. IsTrue (is_of_refusal answer)) }
    ensures failed { result ≡ Err Answer.FolderFault → CountRose (F.faults folder.old) (F.faults folder.new) }
{
    guarded_migrations_are_safe();
    let known = learn(alloc, folder, resuming)?;
    match retire_core::retire(
        alloc,
        folder,
        &resuming.work,
        known.phrases.source.as_slice(),
        known.phrases.target.as_slice(),
    ) {
        Ok(retired) => Ok(retired),
        Err(fault) => Err(refused(&resuming.work, &known.journal, fault)),
    }
}

// The answer to a source that isn't retired.
fn refused(work: &FPath, journal: &Option<Journal>, fault: RetireFault) -> Answer
    ensures answers { (result ≡ Answer.OutOfMemory) ⊎ (result ≡ of_retire work.now (root_by work.now journal.now (unopened fault)) fault) }
    ensures own { IsRetireFault fault → IsTrue (is_of_refusal result) }
    ensures failed { result ≡ Answer.FolderFault → IsRetireFault fault → fault ≡ RetireFault.Failed }
{
    let root = root_by(work, journal, unopened(&fault));
    answer_to_retire(work, root, fault)
}

// The vault that isn't opened.
fn unopened(fault: &RetireFault) -> Option<Side>
    ensures { result ≡ unopened fault.now }
{
    match fault {
        RetireFault::Load(side, _) => Some(*side),
        _ => None,
    }
}

// Writes how many items were retired.
fn print_retired<O: Sink>(alloc: Global, retired: &Retired, out: &mut O) -> Answer
    ensures prints { PrintsText (retired_text retired.now) result (O.taken out.old) (O.taken out.new) }
    ensures answers { (result ≡ Answer.Done) ⊎ ((result ≡ Answer.OutputFault) ⊎ (result ≡ Answer.OutOfMemory)) }
    ensures output_fault { result ≡ Answer.OutputFault → CountRose (O.faults out.old) (O.faults out.new) }
{
    match text_of(alloc, retired) {
        Ok(text) => print(text.as_str(), out),
        Err(_) => Answer::OutOfMemory,
    }
}

fn text_of(alloc: Global, retired: &Retired) -> Result<String, AllocError>
    ensures { IfOk result (λ text. string_bytes text ≡ retired_text retired.now) }
{
    let items = retired.items;
    let mut text = format!(in alloc; "retired {items}")?;
    text.push('\n')?;
    Ok(text)
}
