//! Calls of migrate_core and retire_core.
use crate::layer::drop_done;
use folder_model::FPath;
use migrate_core::{Done, MoveFault, begin, resume};
use migration_sides::Side;
use move_journal::JournalFault;
use plain_tree::{NameMap, PlainPath};
use retire_core::{RetireFault, Retired, retire};
use row_calls::faults::{
    journal_fault, load_fault, match_fault, path_fault, plain_fault, put_fault, walk_fault,
    work_fault,
};
use row_calls::journals::parsed;
use row_calls::places::PASSPHRASE;
use row_playing::{Handed, Stage, Stop};
use row_words::{Said, cut};
use tree_match::Where;
use vault_read::LoadFault;

fn overlap(said: &mut Said, one: FPath, other: FPath) {
    path_fault(said, "Overlap", one);
    said.made(other.text());
}

fn meet(said: &mut Said, one: PlainPath, other: PlainPath) {
    plain_fault(said, "Meet", one);
    said.made(other.shown());
}

fn side_fault(said: &mut Said, side: Side, fault: LoadFault) {
    match side {
        Side::Source => said.word("Source"),
        Side::Target => said.word("Target"),
    }
    load_fault(said, fault);
}

fn differ(said: &mut Said, path: PlainPath, how: Where) {
    plain_fault(said, "Differ", path);
    said.word(match how {
        Where::Missing => "Missing",
        Where::Kind => "Kind",
        Where::Content => "Content",
        Where::Extra => "Extra",
    });
}

// What a journal says of a plan, and how the plan is.
fn changed(said: &mut Said, was: &[u8; 32], items: u64, is: &[u8; 32], now: u64) {
    said.word("Changed");
    said.shows(&items);
    said.hex(was);
    said.shows(&now);
    said.hex(is);
}

fn move_fault(said: &mut Said, fault: MoveFault) {
    match fault {
        MoveFault::Work(fault) => work_fault(said, fault),
        MoveFault::Journal(fault) => journal_fault(said, fault),
        MoveFault::Overlap(one, other) => overlap(said, one, other),
        MoveFault::Load(side, fault) => side_fault(said, side, fault),
        MoveFault::Walk(fault) => walk_fault(said, fault),
        MoveFault::NotEmpty(at) => path_fault(said, "NotEmpty", at),
        MoveFault::NotAllowed(path) => plain_fault(said, "NotAllowed", path),
        MoveFault::Meet(one, other) => meet(said, one, other),
        MoveFault::Changed(was, items, is, now) => changed(said, &was, items, &is, now),
        MoveFault::Match(fault) => match_fault(said, fault),
        MoveFault::Differ(path, how) => differ(said, path, how),
        MoveFault::Place(fault) => put_fault(said, fault),
        MoveFault::SourceGone => said.word("SourceGone"),
        MoveFault::Failed => said.word("Failed"),
        MoveFault::NoMemory => said.word("NoMemory"),
    }
}

fn retire_fault(said: &mut Said, fault: RetireFault) {
    match fault {
        RetireFault::Work(fault) => work_fault(said, fault),
        RetireFault::Journal(fault) => journal_fault(said, fault),
        RetireFault::Unfinished => said.word("Unfinished"),
        RetireFault::Overlap(one, other) => overlap(said, one, other),
        RetireFault::Load(side, fault) => side_fault(said, side, fault),
        RetireFault::Walk(fault) => walk_fault(said, fault),
        RetireFault::NotAllowed(path) => plain_fault(said, "NotAllowed", path),
        RetireFault::Meet(one, other) => meet(said, one, other),
        RetireFault::Match(fault) => match_fault(said, fault),
        RetireFault::Differ(path, how) => differ(said, path, how),
        RetireFault::Depth => said.word("Depth"),
        RetireFault::Failed => said.word("Failed"),
        RetireFault::NoMemory => said.word("NoMemory"),
    }
}

fn say_moved(stage: &mut Stage, answer: Result<Done, MoveFault>) {
    match answer {
        Ok(Done { placed, items }) => {
            stage.said.word("placed");
            stage.said.shows(&placed);
            stage.said.word("of");
            stage.said.shows(&items);
            stage.ended(0);
        }
        Err(fault) => {
            move_fault(&mut stage.said, fault);
            stage.ended(1);
        }
    }
}

fn say_retired(stage: &mut Stage, answer: Result<Retired, RetireFault>) {
    match answer {
        Ok(retired) => {
            stage.said.word("retired");
            stage.said.shows(&retired.items);
            stage.ended(0);
        }
        Err(fault) => {
            retire_fault(&mut stage.said, fault);
            stage.ended(1);
        }
    }
}

// The rule for names that a word behind the places says.
fn rule_of(word: &str) -> Option<NameMap> {
    match word {
        "" => Some(NameMap::Same),
        "nfc" => Some(NameMap::Nfc),
        _ => None,
    }
}

// Begins to move: `FROM TO WORK`, and `nfc` behind them where names come to form C.
fn call_begin(stage: &mut Stage, words: &str, handed: &mut Handed) {
    let (from, words) = cut(words);
    let (to, words) = cut(words);
    let (work, rule) = cut(words);
    let Some(names) = rule_of(rule) else {
        return stage.stop(Stop::Line);
    };
    let work = stage.path(work);
    if let Some(from) = parsed(stage, from) {
        if let Some(to) = parsed(stage, to) {
            let (alloc, folder, random) = (stage.alloc, &mut stage.folder, &mut handed.random);
            let answer = begin(
                alloc, folder, &from, &to, &work, names, PASSPHRASE, PASSPHRASE, random,
            );
            say_moved(stage, answer);
        }
    }
}

fn resumed(stage: &mut Stage, work: &FPath, handed: &mut Handed) -> Result<Done, MoveFault> {
    let (folder, random) = (&mut stage.folder, &mut handed.random);
    resume(stage.alloc, folder, work, PASSPHRASE, PASSPHRASE, random)
}

fn retired(stage: &mut Stage, work: &FPath) -> Result<Retired, RetireFault> {
    retire(stage.alloc, &mut stage.folder, work, PASSPHRASE, PASSPHRASE)
}

// Goes on with a migration, or begins it where no journal says of one: `FROM TO WORK`, and maybe `nfc`. It says a fault alone.
fn call_go_on(stage: &mut Stage, words: &str, handed: &mut Handed) {
    let (_, places) = cut(words);
    let (_, places) = cut(places);
    let (work, rule) = cut(places);
    if rule_of(rule).is_none() {
        return stage.stop(Stop::Line);
    }
    let work = stage.path(work);
    match resumed(stage, &work, handed) {
        Err(MoveFault::Journal(JournalFault::NoJournal)) => call_begin(stage, words, handed),
        answer => say_moved(stage, answer),
    }
    drop_done(stage);
}

// Goes on with a retirement, of which no journal is left where it came to its end. It says a fault alone.
fn call_retire_on(stage: &mut Stage, work: &FPath) {
    match retired(stage, work) {
        Err(RetireFault::Journal(JournalFault::NoJournal)) => stage.done("done"),
        answer => say_retired(stage, answer),
    }
    drop_done(stage);
}

/// Plays `begin FROM TO WORK [nfc]`, `resume WORK` and `retire WORK`, and `go_on FROM TO WORK [nfc]` and `retire_on WORK` after a stop.
pub fn call_moving(stage: &mut Stage, verb: &str, words: &str, handed: &mut Handed) {
    match verb {
        "begin" => return call_begin(stage, words, handed),
        "go_on" => return call_go_on(stage, words, handed),
        _ => {}
    }
    let work = stage.path(words);
    match verb {
        "resume" => {
            let answer = resumed(stage, &work, handed);
            say_moved(stage, answer);
        }
        "retire_on" => call_retire_on(stage, &work),
        _ => {
            let answer = retired(stage, &work);
            say_retired(stage, answer);
        }
    }
}
