//! Running a command.
ghost use Rattle.std.specs.Prelude.{◌≡◌, ◌⊎◌, IsNone, IsTrue, Some, map, string_bytes};
ghost use Rattle.port_model.specs.Counts.{CountRose};
ghost use Rattle.command_answers.specs.Answers.{Blames, status_of};
ghost use Rattle.command_answers.specs.Messages.{IsReported, TakesText, line_of};
ghost use Rattle.command_answers.specs.Rows.{Ends, EndsTold, may_end, may_end_told};
ghost use Rattle.folder_spec.specs.Seen.{IfSeen};
ghost use Rattle.command_words.specs.Commands.{command_of};
ghost use Rattle.command_words.specs.Written.{HasTexts, IsSmall};
ghost use Rattle.vault_cli.specs.Runs.{Executes, OwnsFolders, Runs};
ghost use Rattle.open_for_reading.specs.Carrying.{CarriesOut};
ghost use Rattle.open_for_reading.specs.World.{World};

use checking_commands::{fsck, repair};
use command_answers::laws::{reports_are_answers, words_alone_end_with_2};
use command_answers::{Answer, report};
use command_words::commands::Command;
use demonstration::demo;
use folder_model::Folder;
use migration_commands::{migrate, resume, retire};
use port_model::{Randoms, Sink, Source};
use reading_commands::{cat, decrypt_file, ls};
use std::alloc::Global;
use writing_commands::{init, mkdir, passwd, put};

/// Does what the words after the program's name ask for, and answers the status to end with. Every status but 0 and 1 writes its line
/// to `err`: 1 a check has findings, 2 no command, 3 no memory, 4 the folder failed, 5 the input, 6 the output, 7 the random source,
/// 8 a configuration is refused, 9 the passphrase, 10 something isn't there, 11 it is of another kind, 12 it is damaged, 13 a name isn't
/// allowed, 14 a vault isn't clean, 15 folders overlap, 16 a place isn't free, 17 a journal is there, 18 none of use is there, 19 the
/// source of a migration has changed, 20 two trees differ, 21 zero random bytes, 22 a place is taken, 23 a limit is passed, 24 the source
/// of a migration is retired, 25 two items of a migration's source come to one path in its target.
pub fn run<F: Folder, R: Randoms, I: Source, O: Sink, E: Sink>(
    alloc: Global,
    words: &[String],
    folder: &mut F,
    random: &mut R,
    input: &mut I,
    out: &mut O,
    err: &mut E,
) -> u8
    // There is one answer, which tells what the command of these words did. It is behind the status and the line on `err`, unless its
    // message finds no memory: then that is.
    ensures answer { (answer reported : Answer) × IsReported answer reported × (result ≡ status_of reported)
        × TakesText (E.taken err.old) (E.taken err.new) (E.faults err.old) (E.faults err.new) (line_of reported)
        × Runs (command_of (map string_bytes words.now)) answer
        (record { told = F.told folder.old; left = I.left input.old; ended = I.ended input.old; taken = O.taken out.old; random = R.left random.old })
        (record { told = F.told folder.new; left = I.left input.new; ended = I.ended input.new; taken = O.taken out.new; random = R.left random.new }) }

    // The status is one that the command may end with, whatever was handed in; and one over a folder that tells its state, where it does.
    ensures row { IsTrue (may_end (command_of (map string_bytes words.now)) result) }
    ensures told_row { IfSeen (F.told folder.old) (λ v. OwnsFolders (command_of (map string_bytes words.now)) v → IsTrue (may_end_told (command_of (map string_bytes words.now)) result)) }

    // What was handed in is named only where its count of faults rose.
    ensures folder_fault { result ≡ 4 → CountRose (F.faults folder.old) (F.faults folder.new) }
    ensures input_fault { result ≡ 5 → CountRose (I.faults input.old) (I.faults input.new) }
    ensures output_fault { result ≡ 6 → CountRose (O.faults out.old) (O.faults out.new) }
    ensures random_fault { result ≡ 7 → CountRose (R.faults random.old) (R.faults random.new) }

    // Words that make no command are refused, unless memory is, and no others.
    ensures bad_command_line { result ≡ 2 → IsNone (command_of (map string_bytes words.now)) }
    ensures no_command { IsNone (command_of (map string_bytes words.now)) → (result ≡ 2) ⊎ (result ≡ 3) }
{
    reports_are_answers();
    words_alone_end_with_2();
    let answer = execute(alloc, words, folder, random, input, out);
    let answer = report(alloc, answer, err);
    answer.status()
}

// Does what the words ask for.
fn execute<F: Folder, R: Randoms, I: Source, O: Sink>(
    alloc: Global,
    words: &[String],
    folder: &mut F,
    random: &mut R,
    input: &mut I,
    out: &mut O,
) -> Answer
    ensures runs { Runs (command_of (map string_bytes words.now)) result
        (record { told = F.told folder.old; left = I.left input.old; ended = I.ended input.old; taken = O.taken out.old; random = R.left random.old })
        (record { told = F.told folder.new; left = I.left input.new; ended = I.ended input.new; taken = O.taken out.new; random = R.left random.new }) }
    ensures row { Ends (command_of (map string_bytes words.now)) result }
    ensures told_row { IfSeen (F.told folder.old) (λ v. OwnsFolders (command_of (map string_bytes words.now)) v → EndsTold (command_of (map string_bytes words.now)) result) }
    ensures blame { Blames result (CountRose (F.faults folder.old) (F.faults folder.new)) (CountRose (I.faults input.old) (I.faults input.new))
        (CountRose (O.faults out.old) (O.faults out.new)) (CountRose (R.faults random.old) (R.faults random.new)) }
{
    match Command::from_words(alloc, words) {
        Err(_) => Answer::OutOfMemory,
        Ok(None) => Answer::BadCommandLine,
        Ok(Some(command)) => execute_command(alloc, &command, folder, random, input, out),
    }
}

// Does what a command says. It is borrowed, so that no exit drops it.
fn execute_command<F: Folder, R: Randoms, I: Source, O: Sink>(
    alloc: Global,
    command: &Command,
    folder: &mut F,
    random: &mut R,
    input: &mut I,
    out: &mut O,
) -> Answer
    requires texts { HasTexts command.now }
    requires small { IsSmall command.now }
    ensures { CarriesOut command.now (λ answer before after. Executes (Some command.now) answer before after) (λ v. OwnsFolders (Some command.now) v) result
        (record { told = F.told folder.old; left = I.left input.old; ended = I.ended input.old; taken = O.taken out.old; random = R.left random.old })
        (record { told = F.told folder.new; left = I.left input.new; ended = I.ended input.new; taken = O.taken out.new; random = R.left random.new })
        (CountRose (F.faults folder.old) (F.faults folder.new)) (CountRose (I.faults input.old) (I.faults input.new))
        (CountRose (O.faults out.old) (O.faults out.new)) (CountRose (R.faults random.old) (R.faults random.new)) }
{
    match command {
        Command::DecryptFile(key) => decrypt_file(alloc, key, folder, random, input, out),
        Command::Init(new) => init(alloc, new, folder, random, input, out),
        Command::Ls(target) => ls(alloc, target, folder, random, input, out),
        Command::Cat(target) => cat(alloc, target, folder, random, input, out),
        Command::Fsck(target) => fsck(alloc, target, folder, random, input, out),
        Command::Mkdir(change) => mkdir(alloc, change, folder, random, input, out),
        Command::Put(change) => put(alloc, change, folder, random, input, out),
        Command::Repair(target) => repair(alloc, target, folder, random, input, out),
        Command::Migrate(moving) => migrate(alloc, moving, folder, random, input, out),
        Command::Resume(resuming) => resume(alloc, resuming, folder, random, input, out),
        Command::Retire(resuming) => retire(alloc, resuming, folder, random, input, out),
        Command::Passwd(new) => passwd(alloc, new, folder, random, input, out),
        Command::Demo(demonstration) => demo(alloc, demonstration, folder, random, input, out),
    }
}
