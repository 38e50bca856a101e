//! `resume`: goes on with a migration.
ghost use Rattle.std.specs.Prelude.{◌≡◌, ◌⊎◌, ⊤, Ok, Err, IfErr, IfOk, IsTrue};
ghost use Rattle.folder_spec.specs.Seen.{IfSeen, IsSeen};
ghost use Rattle.folder_spec.specs.View.{View};
ghost use Rattle.migrate_core.specs.Completing.{CanResume};
ghost use Rattle.migrate_core.specs.Drawing.{Drew};
ghost use Rattle.migrate_core.specs.Faults.{IsMoveFault};
ghost use Rattle.migrate_core.specs.Lasting.{KeepsEachJournal};
ghost use Rattle.migrate_core.specs.Moving.{MovesOnly};
ghost use Rattle.move_journal.specs.Journal.{IsJournal};
ghost use Rattle.move_journal.specs.Reading.{StandsIn};
ghost use Rattle.port_model.specs.Counts.{CountRose};
ghost use Rattle.migration_spec.specs.Guard.{Migration};
ghost use Rattle.open_for_reading.specs.Carrying.{CarriesOut};
ghost use Rattle.open_for_reading.specs.World.{World};
ghost use Rattle.migration_answers.specs.Faults.{of_move};
ghost use Rattle.migration_answers.specs.Stops.{is_of_told_stop};
ghost use Rattle.migration_commands.specs.Moving.{Completes, KeepsAll};
ghost use Rattle.migration_commands.specs.Resume.{ComesTo, HasResumed, HaveTrees, IsResumedFor, MayCome, ResumesTree, root_by, unopened};
ghost use Rattle.command_words.specs.declared.commands.Command.TheVariants.{Resume};

use crate::moving::{learn, print_done, root_by};
use command_answers::Answer;
use command_words::commands::Resuming;
use content_writing::PutFault;
use folder_model::{FPath, Folder};
use migrate_core::{Done, MoveFault};
use migration_answers::answer_to_move;
use migration_sides::Side;
use migration_spec::laws::guarded_migrations_are_safe;
use move_journal::Journal;
use port_model::{Randoms, Sink, Source};
use std::alloc::Global;

/// Goes on with the migration that the journal tells of, and then writes what was done.
pub fn resume<F: Folder, R: Randoms, I: Source, O: Sink>(
    alloc: Global,
    resuming: &Resuming,
    folder: &mut F,
    random: &mut R,
    input: &mut I,
    out: &mut O,
) -> Answer
    ensures { CarriesOut (Resume resuming.now) (ResumesTree resuming.now) (λ v. ⊤) result
        (record { told = F.told folder.old; left = I.left input.old; ended = I.ended input.old; taken = O.taken out.old; random = R.left random.old })
        (record { told = F.told folder.new; left = I.left input.new; ended = I.ended input.new; taken = O.taken out.new; random = R.left random.new })
        (CountRose (F.faults folder.old) (F.faults folder.new)) (CountRose (I.faults input.old) (I.faults input.new))
        (CountRose (O.faults out.old) (O.faults out.new)) (CountRose (R.faults random.old) (R.faults random.new)) }
{
    match go_on(alloc, resuming, folder, random) {
        Ok(done) => print_done(alloc, &done, out),
        Err(answer) => answer,
    }
}

// Reads the passphrases, and goes on.
fn go_on<F: Folder, R: Randoms>(
    alloc: Global,
    resuming: &Resuming,
    folder: &mut F,
    random: &mut R,
) -> Result<Done, Answer>
    ensures resumed { IfOk result (λ done. HasResumed resuming.now done (F.told folder.old) (F.told folder.new)) }
    ensures came { IfOk result (λ done. IfSeen (F.told folder.old) (λ v. ComesTo resuming.now (λ outcome. outcome ≡ Ok done) (F.told folder.old) (F.told folder.new) (R.left random.old) (R.left random.new) v)) }
    ensures stopped { IfErr result (λ answer. IfSeen (F.told folder.old) (λ v. MayCome resuming.now answer (F.told folder.old) (F.told folder.new) (R.left random.old) (R.left random.new) v)) }
    ensures keeps { (g : Migration) → IfSeen (F.told folder.old) (λ v. IsResumedFor g resuming.now v → KeepsAll g (F.told folder.old) (F.told folder.new)) }
    ensures moves { (v : View) (journal : Journal) → IsSeen (F.told folder.old) v → IsJournal journal → StandsIn resuming.now.work journal v → MovesOnly resuming.now.work journal.target (F.told folder.old) (F.told folder.new) }
    ensures journal { KeepsEachJournal (HaveTrees resuming.now) resuming.now.work (F.told folder.old) (F.told folder.new) }
    ensures completes { IfErr result (λ answer. (g : Migration) → IfSeen (F.told folder.old) (λ v. IsResumedFor g resuming.now v → CanResume g v → Completes answer)) }
    ensures own { IfErr result (λ answer. IsTrue (is_of_told_stop answer)) }
    ensures failed { result ≡ Err Answer.FolderFault → CountRose (F.faults folder.old) (F.faults folder.new) }
    ensures drew { Drew (result ≡ Err Answer.ZeroRandom) (R.left random.old) (R.left random.new) }
    ensures drawn { result ≡ Err Answer.RandomFault → CountRose (R.faults random.old) (R.faults random.new) }
{
    guarded_migrations_are_safe();
    let known = learn(alloc, folder, resuming)?;
    match migrate_core::resume(
        alloc,
        folder,
        &resuming.work,
        known.phrases.source.as_slice(),
        known.phrases.target.as_slice(),
        random,
    ) {
        Ok(done) => Ok(done),
        Err(fault) => Err(stopped(&resuming.work, &known.journal, fault)),
    }
}

// The answer to a migration that stops.
fn stopped(work: &FPath, journal: &Option<Journal>, fault: MoveFault) -> Answer
    ensures answers { (result ≡ Answer.OutOfMemory) ⊎ (result ≡ of_move work.now (root_by work.now journal.now (unopened fault)) fault) }
    ensures own { IsMoveFault fault → IsTrue (is_of_told_stop result) }
    ensures failed { result ≡ Answer.FolderFault → IsMoveFault fault → fault ≡ MoveFault.Failed }
    ensures drawn { result ≡ Answer.RandomFault → fault ≡ MoveFault.Place PutFault.Random }
    ensures zeros { result ≡ Answer.ZeroRandom → fault ≡ MoveFault.Place PutFault.ZeroRandom }
{
    let root = root_by(work, journal, unopened(&fault));
    answer_to_move(work, root, fault)
}

// The vault that isn't opened.
fn unopened(fault: &MoveFault) -> Option<Side>
    ensures { result ≡ unopened fault.now }
{
    match fault {
        MoveFault::Load(side, _) => Some(*side),
        _ => None,
    }
}
