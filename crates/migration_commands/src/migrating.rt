//! `migrate`: moves the tree of one vault into another.
ghost use Rattle.std.specs.Prelude.{◌≡◌, ◌≢◌, Ok, Err, IfErr, IfOk, IsTrue};
ghost use Rattle.folder_spec.specs.Apart.{AreSeparate};
ghost use Rattle.folder_spec.specs.Path.{Path};
ghost use Rattle.folder_spec.specs.Seen.{IfSeen};
ghost use Rattle.migrate_core.specs.Completing.{CanBegin};
ghost use Rattle.migrate_core.specs.Drawing.{Drew};
ghost use Rattle.migrate_core.specs.Moving.{MovesOnly};
ghost use Rattle.port_model.specs.Counts.{CountRose};
ghost use Rattle.migration_spec.specs.Guard.{Migration};
ghost use Rattle.open_for_reading.specs.Carrying.{CarriesOut};
ghost use Rattle.open_for_reading.specs.World.{World};
ghost use Rattle.command_words.specs.Written.{AreWritten};
ghost use Rattle.migration_commands.specs.Migrate.{ComesTo, HasMigrated, IsAskedFor, MayCome, MigratesApart, MigratesTree, SidesHaveOwnFolders, root_of};
ghost use Rattle.migration_answers.specs.Stops.{is_of_stop};
ghost use Rattle.migration_commands.specs.Moving.{Completes, KeepsAll};
ghost use Rattle.command_words.specs.declared.commands.Command.TheVariants.{Migrate};

use crate::moving::{print_done, read_passes};
use command_answers::Answer;
use command_words::commands::Moving;
use folder_model::{FPath, Folder};
use migrate_core::{Done, MoveFault};
use migration_answers::answer_to_move;
use migration_sides::Side;
use migration_spec::laws::guarded_migrations_are_safe;
use open_for_reading::{do_overlap, overlapping};
use port_model::{Randoms, Sink, Source};
use std::alloc::Global;

/// Moves the source's tree into the target, and then writes what was done.
pub fn migrate<F: Folder, R: Randoms, I: Source, O: Sink>(
    alloc: Global,
    moving: &Moving,
    folder: &mut F,
    random: &mut R,
    input: &mut I,
    out: &mut O,
) -> Answer
    requires written { AreWritten moving.now }
    ensures { CarriesOut (Migrate moving.now) (MigratesTree moving.now) (λ v. SidesHaveOwnFolders moving.now v) result
        (record { told = F.told folder.old; left = I.left input.old; ended = I.ended input.old; taken = O.taken out.old; random = R.left random.old })
        (record { told = F.told folder.new; left = I.left input.new; ended = I.ended input.new; taken = O.taken out.new; random = R.left random.new })
        (CountRose (F.faults folder.old) (F.faults folder.new)) (CountRose (I.faults input.old) (I.faults input.new))
        (CountRose (O.faults out.old) (O.faults out.new)) (CountRose (R.faults random.old) (R.faults random.new)) }
{
    if do_overlap(&moving.source, &moving.target) {
        return overlapping(&moving.source, &moving.target);
    }
    if do_overlap(&moving.source, &moving.work) {
        return overlapping(&moving.source, &moving.work);
    }
    if do_overlap(&moving.target, &moving.work) {
        return overlapping(&moving.target, &moving.work);
    }
    migrate_apart(alloc, moving, folder, random, out)
}

// Moves the tree between folders that don't overlap.
fn migrate_apart<F: Folder, R: Randoms, O: Sink>(
    alloc: Global,
    moving: &Moving,
    folder: &mut F,
    random: &mut R,
    out: &mut O,
) -> Answer
    requires written { AreWritten moving.now }
    requires separate { AreSeparate moving.now.source moving.now.target moving.now.work }
    ensures apart { MigratesApart moving.now result (F.told folder.old) (F.told folder.new) (O.taken out.old) (O.taken out.new) (R.left random.old) (R.left random.new) }
    ensures folder_fault { result ≡ Answer.FolderFault → CountRose (F.faults folder.old) (F.faults folder.new) }
    ensures random_fault { result ≡ Answer.RandomFault → CountRose (R.faults random.old) (R.faults random.new) }
    ensures output_fault { result ≡ Answer.OutputFault → CountRose (O.faults out.old) (O.faults out.new) }
{
    match begin(alloc, moving, folder, random) {
        Ok(done) => print_done(alloc, &done, out),
        Err(answer) => answer,
    }
}

// Reads the passphrases, and moves the tree.
fn begin<F: Folder, R: Randoms>(
    alloc: Global,
    moving: &Moving,
    folder: &mut F,
    random: &mut R,
) -> Result<Done, Answer>
    requires written { AreWritten moving.now }
    requires separate { AreSeparate moving.now.source moving.now.target moving.now.work }
    ensures migrated { IfOk result (λ done. HasMigrated moving.now done (F.told folder.old) (F.told folder.new)) }
    ensures came { IfOk result (λ done. IfSeen (F.told folder.old) (λ v. ComesTo moving.now (λ outcome. outcome ≡ Ok done) (F.told folder.old) (F.told folder.new) (R.left random.old) (R.left random.new) v)) }
    ensures stopped { IfErr result (λ answer. IfSeen (F.told folder.old) (λ v. MayCome moving.now answer (F.told folder.old) (F.told folder.new) (R.left random.old) (R.left random.new) v)) }
    ensures keeps { (g : Migration) → IfSeen (F.told folder.old) (λ v. IsAskedFor g moving.now v → KeepsAll g (F.told folder.old) (F.told folder.new)) }
    ensures moves { MovesOnly moving.now.work moving.now.target (F.told folder.old) (F.told folder.new) }
    ensures completes { IfErr result (λ answer. (g : Migration) → IfSeen (F.told folder.old) (λ v. IsAskedFor g moving.now v → CanBegin g v → Completes answer)) }
    ensures own { IfErr result (λ answer. IsTrue (is_of_stop answer)) }
    ensures apart { (first second : Path) → result ≢ Err (Answer.Overlap first second) }
    ensures failed { result ≡ Err Answer.FolderFault → CountRose (F.faults folder.old) (F.faults folder.new) }
    ensures drew { Drew (result ≡ Err Answer.ZeroRandom) (R.left random.old) (R.left random.new) }
    ensures drawn { result ≡ Err Answer.RandomFault → CountRose (R.faults random.old) (R.faults random.new) }
{
    guarded_migrations_are_safe();
    let phrases = read_passes(alloc, folder, &moving.passes)?;
    match migrate_core::begin(
        alloc,
        folder,
        &moving.source,
        &moving.target,
        &moving.work,
        moving.names,
        phrases.source.as_slice(),
        phrases.target.as_slice(),
        random,
    ) {
        Ok(done) => Ok(done),
        Err(fault) => {
            let root = root_of(moving, &fault);
            Err(answer_to_move(&moving.work, root, fault))
        }
    }
}

// The root of the vault that isn't opened.
fn root_of<'a>(moving: &'a Moving, fault: &MoveFault) -> &'a FPath
    ensures { result.now ≡ root_of moving.now fault.now }
{
    match fault {
        MoveFault::Load(Side::Target, _) => &moving.target,
        _ => &moving.source,
    }
}
