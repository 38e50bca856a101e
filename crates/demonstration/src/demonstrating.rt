//! `demo`: makes a tree from a number, and moves it to the other format and back, in a folder of its own.
ghost use Rattle.std.specs.Prelude.{◌≡◌, ◌≤◌, ℕ, ⊤, Err, IfErr, IfOk, OnOk, IsTrue};
ghost use Rattle.command_answers.specs.Answers.{status_of};
ghost use Rattle.command_answers.specs.Messages.{TakesText, line_of};
ghost use Rattle.open_for_reading.specs.Carrying.{CarriesOut};
ghost use Rattle.open_for_reading.specs.World.{World};
ghost use Rattle.demo_core.specs.Drawing.{Drew};
ghost use Rattle.demo_core.specs.Sharing.{GoesOn};
ghost use Rattle.demonstration.specs.Demo.{Demonstrates, EndsSo, IsBare, OnEnd, PrintsAll, PrintsBack, PrintsDemonstration, PrintsWay, chances, chances_of, is_of_demonstration, is_of_fault};
ghost use Rattle.demonstration.specs.DemoSteps.{CanLead, Sees};
ghost use Rattle.demonstration.specs.DemoTrees.{BringsItems, Leads, LeadsBoth, MakesItems, WhereTold, second_root, third_root};
ghost use Rattle.migration_answers.specs.Stops.{is_of_stop};
ghost use Rattle.port_model.specs.Counts.{CountRose};
ghost use Rattle.command_words.specs.declared.commands.Command.TheVariants.{Demo};

use crate::faults::answer_to_make;
use crate::leading::{Led, Leg, lead};
use crate::telling::{tell_made, tell_retired};
use command_answers::{Answer, report};
use command_words::commands::Demonstration;
use demo_core::{SteadyFolder, make_first, place, random_of};
use folder_model::Folder;
use port_model::laws::draws_compose;
use port_model::{Randoms, Sink, Source};
use std::alloc::Global;
use vault_read::VaultKind;
use vault_read::laws::roots_have_one_answer;

/// Makes a tree of so many items from a number in a gocryptfs vault at `g`, moves it into a new Cryptomator vault at `c`, retires `g`,
/// moves it into a new gocryptfs vault at `h`, and retires `c`. `count` is at most 2,000. Of each part it writes to `out` what was done,
/// and to `err` the message of a status other than 0. It answers the status: 0 where all is done, or a migration ends with another
/// status, which stands on its line.
pub fn demo_in<F: Folder, O: Sink, E: Sink>(
    alloc: Global,
    folder: &mut F,
    seed: u64,
    count: u32,
    out: &mut O,
    err: &mut E,
) -> u8
    requires { count ≤ 2000 }
    // One answer is behind the status, the line on `err` and what was printed.
    ensures answer { (answer : Answer) × (result ≡ status_of answer)
        × TakesText (E.taken err.old) (E.taken err.new) (E.faults err.old) (E.faults err.new) (line_of answer)
        × IsTrue (is_of_demonstration answer)
        × EndsSo (chances_of (CountRose (F.faults folder.old) (F.faults folder.new)) (IsBare (F.told folder.old)) seed count (F.told folder.old) (F.told folder.new)) answer
        × PrintsDemonstration (chances_of (CountRose (F.faults folder.old) (F.faults folder.new)) (IsBare (F.told folder.old)) seed count (F.told folder.old) (F.told folder.new)) (WhereTold (BringsItems seed count) (F.told folder.old) (F.told folder.new)) seed count answer (O.taken out.old) (O.taken out.new) }
    ensures folder_fault { result ≡ 4 → CountRose (F.faults folder.old) (F.faults folder.new) }
    ensures output_fault { result ≡ 6 → CountRose (O.faults out.old) (O.faults out.new) }
{
    let answer = demonstrate(alloc, folder, seed, count, out);
    let answer = report(alloc, answer, err);
    answer.status()
}

/// Does so in a new folder in memory, in which no call fails.
pub fn demo<F: Folder, R: Randoms, I: Source, O: Sink>(
    alloc: Global,
    demonstration: &Demonstration,
    folder: &mut F,
    random: &mut R,
    input: &mut I,
    out: &mut O,
) -> Answer
    requires { demonstration.now.count ≤ 2000 }
    ensures { CarriesOut (Demo demonstration.now) (Demonstrates demonstration.now) (λ v. ⊤) result
        (record { told = F.told folder.old; left = I.left input.old; ended = I.ended input.old; taken = O.taken out.old; random = R.left random.old })
        (record { told = F.told folder.new; left = I.left input.new; ended = I.ended input.new; taken = O.taken out.new; random = R.left random.new })
        (CountRose (F.faults folder.old) (F.faults folder.new)) (CountRose (I.faults input.old) (I.faults input.new))
        (CountRose (O.faults out.old) (O.faults out.new)) (CountRose (R.faults random.old) (R.faults random.new)) }
{
    let Demonstration { seed, count } = *demonstration;
    let count = count as u32;
    match SteadyFolder::new(alloc) {
        Ok(mut steady) => demonstrate(alloc, &mut steady, seed, count, out),
        Err(_) => Answer::OutOfMemory,
    }
}

fn demonstrate<F: Folder, O: Sink>(
    alloc: Global,
    folder: &mut F,
    seed: u64,
    count: u32,
    out: &mut O,
) -> Answer
    requires { count ≤ 2000 }
    ensures own { IsTrue (is_of_demonstration result) }
    ensures ends { EndsSo (chances_of (CountRose (F.faults folder.old) (F.faults folder.new)) (IsBare (F.told folder.old)) seed count (F.told folder.old) (F.told folder.new)) result }
    ensures prints { PrintsDemonstration (chances_of (CountRose (F.faults folder.old) (F.faults folder.new)) (IsBare (F.told folder.old)) seed count (F.told folder.old) (F.told folder.new)) (WhereTold (BringsItems seed count) (F.told folder.old) (F.told folder.new)) seed count result (O.taken out.old) (O.taken out.new) }
    ensures folder_fault { result ≡ Answer.FolderFault → CountRose (F.faults folder.old) (F.faults folder.new) }
    ensures output_fault { result ≡ Answer.OutputFault → CountRose (O.faults out.old) (O.faults out.new) }
{
    let mut random = random_of(seed);
    match make_and_move(alloc, folder, seed, count, &mut random, out) {
        Ok(_) => Answer::Done,
        Err(answer) => answer,
    }
}

// How the demonstration ends.
#[derive(Clone, Copy)]
enum Way {
    // The migration to Cryptomator ends it with this status.
    StoppedThere(u8),
    // The migration back does.
    StoppedBack(u8),
    // Both are done, and each retired so many items.
    Arrived(u64, u64),
}

// Makes the first vault and its items, and moves them there and back.
fn make_and_move<F: Folder, R: Randoms, O: Sink>(
    alloc: Global,
    folder: &mut F,
    seed: u64,
    count: u32,
    random: &mut R,
    out: &mut O,
) -> Result<Way, Answer>
    requires { count ≤ 2000 }
    ensures own { IfErr result (λ answer. IsTrue (is_of_fault answer)) }
    ensures ends { IfErr result (EndsSo (chances (F.faults folder.old) (F.faults folder.new) (R.faults random.old) (R.faults random.new) (R.left random.old) (R.left random.new) (F.told folder.old) (F.told folder.new) count (IsBare (F.told folder.old)))) }
    ensures prints { PrintsAll (chances (F.faults folder.old) (F.faults folder.new) (R.faults random.old) (R.faults random.new) (R.left random.old) (R.left random.new) (F.told folder.old) (F.told folder.new) count (IsBare (F.told folder.old))) seed count result (O.taken out.old) (O.taken out.new) }
    ensures folder_fault { result ≡ Err Answer.FolderFault → CountRose (F.faults folder.old) (F.faults folder.new) }
    ensures random_fault { result ≡ Err Answer.RandomFault → CountRose (R.faults random.old) (R.faults random.new) }
    ensures output_fault { result ≡ Err Answer.OutputFault → CountRose (O.faults out.old) (O.faults out.new) }
    ensures brings { IfOk result (OnEnd (WhereTold (BringsItems seed count) (F.told folder.old) (F.told folder.new))) }
{
    draws_compose();
    roots_have_one_answer();
    make_items(alloc, folder, seed, count, random)?;
    tell_made(alloc, seed, count, out)?;
    move_there(alloc, folder, random, out)
}

// Makes the first vault and its items.
fn make_items<F: Folder, R: Randoms>(
    alloc: Global,
    folder: &mut F,
    seed: u64,
    count: u32,
    random: &mut R,
) -> Result<(), Answer>
    requires { count ≤ 2000 }
    ensures own { IfErr result (λ answer. IsTrue (is_of_stop answer)) }
    ensures folder_fault { result ≡ Err Answer.FolderFault → CountRose (F.faults folder.old) (F.faults folder.new) }
    ensures random_fault { result ≡ Err Answer.RandomFault → CountRose (R.faults random.old) (R.faults random.new) }
    ensures grows { F.faults folder.old ≤ F.faults folder.new }
    ensures counted { R.faults random.old ≤ R.faults random.new }
    ensures goes { GoesOn (F.told folder.old) (F.told folder.new) }
    ensures drew { Drew ⊥ (R.left random.old) (R.left random.new) }
    ensures ends { IfErr result (EndsSo (chances (F.faults folder.old) (F.faults folder.new) (R.faults random.old) (R.faults random.new) (R.left random.old) (R.left random.new) (F.told folder.old) (F.told folder.new) count (IsBare (F.told folder.old)))) }
    ensures stands { OnOk result (IsBare (F.told folder.old) → Sees (CanLead Leg.There) count (F.told folder.new)) }
    ensures makes { OnOk result (WhereTold (MakesItems seed count) (F.told folder.old) (F.told folder.new)) }
{
    draws_compose();
    let root = place(alloc, "g")?;
    match make_first(alloc, folder, seed, count, random) {
        Ok(()) => Ok(()),
        Err(fault) => Err(answer_to_make(alloc, &root, fault)),
    }
}

// Moves the items into a Cryptomator vault at `c`, and then back.
fn move_there<F: Folder, R: Randoms, O: Sink>(
    alloc: Global,
    folder: &mut F,
    random: &mut R,
    out: &mut O,
) -> Result<Way, Answer>
    ensures own { IfErr result (λ answer. IsTrue (is_of_fault answer)) }
    ensures ends { (count : ℕ) → IfErr result (EndsSo (chances (F.faults folder.old) (F.faults folder.new) (R.faults random.old) (R.faults random.new) (R.left random.old) (R.left random.new) (F.told folder.old) (F.told folder.new) count (Sees (CanLead Leg.There) count (F.told folder.old)))) }
    ensures prints { (count : ℕ) → PrintsWay (chances (F.faults folder.old) (F.faults folder.new) (R.faults random.old) (R.faults random.new) (R.left random.old) (R.left random.new) (F.told folder.old) (F.told folder.new) count (Sees (CanLead Leg.There) count (F.told folder.old))) count result (O.taken out.old) (O.taken out.new) }
    ensures folder_fault { result ≡ Err Answer.FolderFault → CountRose (F.faults folder.old) (F.faults folder.new) }
    ensures random_fault { result ≡ Err Answer.RandomFault → CountRose (R.faults random.old) (R.faults random.new) }
    ensures output_fault { result ≡ Err Answer.OutputFault → CountRose (O.faults out.old) (O.faults out.new) }
    ensures leads { IfOk result (OnEnd (WhereTold LeadsBoth (F.told folder.old) (F.told folder.new))) }
{
    draws_compose();
    match lead(alloc, folder, Leg::There, random, out)? {
        Led::Stopped(status) => Ok(Way::StoppedThere(status)),
        Led::Retired(items) => move_back(alloc, folder, items, random, out),
    }
}

// Moves the items into a gocryptfs vault at `h`.
fn move_back<F: Folder, R: Randoms, O: Sink>(
    alloc: Global,
    folder: &mut F,
    first: u64,
    random: &mut R,
    out: &mut O,
) -> Result<Way, Answer>
    ensures own { IfErr result (λ answer. IsTrue (is_of_fault answer)) }
    ensures ends { (count : ℕ) → IfErr result (EndsSo (chances (F.faults folder.old) (F.faults folder.new) (R.faults random.old) (R.faults random.new) (R.left random.old) (R.left random.new) (F.told folder.old) (F.told folder.new) count (Sees (CanLead Leg.Back) count (F.told folder.old)))) }
    ensures prints { (count : ℕ) → PrintsBack (chances (F.faults folder.old) (F.faults folder.new) (R.faults random.old) (R.faults random.new) (R.left random.old) (R.left random.new) (F.told folder.old) (F.told folder.new) count (Sees (CanLead Leg.Back) count (F.told folder.old))) count first result (O.taken out.old) (O.taken out.new) }
    ensures folder_fault { result ≡ Err Answer.FolderFault → CountRose (F.faults folder.old) (F.faults folder.new) }
    ensures random_fault { result ≡ Err Answer.RandomFault → CountRose (R.faults random.old) (R.faults random.new) }
    ensures output_fault { result ≡ Err Answer.OutputFault → CountRose (O.faults out.old) (O.faults out.new) }
    ensures leads { IfOk result (OnEnd (WhereTold (Leads VaultKind.Gocryptfs second_root third_root) (F.told folder.old) (F.told folder.new))) }
{
    match lead(alloc, folder, Leg::Back, random, out)? {
        Led::Stopped(status) => Ok(Way::StoppedBack(status)),
        Led::Retired(second) => {
            tell_retired(alloc, first, second, out)?;
            Ok(Way::Arrived(first, second))
        }
    }
}
