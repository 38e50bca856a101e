//! Calls of move_journal.
ghost use Rattle.std.specs.Prelude.{IfSome};
ghost use Rattle.folder_model.specs.Text.{IsParsed};

use crate::faults::journal_fault;
use crate::folders::say_folder;
use crate::matching::rule_named;
use folder_model::FPath;
use move_journal::{Journal, Phase, read, write};
use plain_tree::NameMap;
use row_playing::{Stage, Stop};
use row_words::cut;

/// The path that a word writes, which a journal can have.
pub fn parsed(stage: &mut Stage, word: &str) -> Option<FPath>
    ensures { IfSome result (λ path. IsParsed path) }
{
    let _utf8 = word.as_bytes();
    match FPath::parse(stage.alloc, word) {
        Ok(path) => Some(path),
        Err(_) => {
            stage.stop(Stop::Line);
            None
        }
    }
}

fn say_journal(stage: &mut Stage, journal: &Journal) {
    stage.said.word(match journal.phase {
        Phase::Building => "building",
        Phase::Done => "done",
    });
    stage.said.word(match journal.names {
        NameMap::Same => "same",
        NameMap::Nfc => "nfc",
    });
    stage.said.made(journal.source.text());
    stage.said.made(journal.target.text());
    stage.said.shows(&journal.items);
    stage.said.hex(journal.plan.as_slice());
    stage.ended(0);
}

fn read_journal(stage: &mut Stage, work: &FPath) {
    match read(stage.alloc, &mut stage.folder, work) {
        Ok(journal) => say_journal(stage, &journal),
        Err(fault) => {
            journal_fault(&mut stage.said, fault);
            stage.ended(1);
        }
    }
}

// The digest that a word writes.
fn digest(stage: &mut Stage, word: &str) -> Option<[u8; 32]> {
    let bytes = stage.bytes(word);
    let digest = <[u8; 32]>::try_from(bytes.as_slice()).ok();
    if digest.is_none() {
        stage.stop(Stop::Line);
    }
    digest
}

fn phase_named(word: &str) -> Option<Phase> {
    match word {
        "building" => Some(Phase::Building),
        "done" => Some(Phase::Done),
        _ => None,
    }
}

// Writes a journal: `PHASE NAMES FROM TO ITEMS DIGEST`.
fn write_journal(stage: &mut Stage, work: &FPath, words: &str) {
    let (phase, words) = cut(words);
    let (names, words) = cut(words);
    let (from, words) = cut(words);
    let (to, words) = cut(words);
    let (items, plan) = cut(words);
    let items = stage.number(items);
    let (Some(phase), Some(names)) = (phase_named(phase), rule_named(names)) else {
        return stage.stop(Stop::Line);
    };
    if items > 200_000 {
        return stage.stop(Stop::Line);
    }
    let Some(plan) = digest(stage, plan) else {
        return;
    };
    let Some(source) = parsed(stage, from) else {
        return;
    };
    let Some(target) = parsed(stage, to) else {
        return;
    };
    let journal = Journal {
        phase,
        names,
        source,
        target,
        items,
        plan,
    };
    let answer = write(stage.alloc, &mut stage.folder, work, &journal);
    say_folder(stage, answer);
}

// Writes the journal of a work folder again, as that of a migration that is done.
fn finish_journal(stage: &mut Stage, work: &FPath) {
    let Ok(journal) = read(stage.alloc, &mut stage.folder, work) else {
        return stage.stop(Stop::Line);
    };
    let journal = Journal {
        phase: Phase::Done,
        ..journal
    };
    let answer = write(stage.alloc, &mut stage.folder, work, &journal);
    say_folder(stage, answer);
}

/// Plays `journal read WORK`, `journal write WORK PHASE NAMES FROM TO ITEMS DIGEST` and `journal finish WORK`.
pub fn call_journal(stage: &mut Stage, words: &str) {
    let (verb, words) = cut(words);
    let (work, words) = cut(words);
    let work = stage.path(work);
    if verb == "write" {
        return write_journal(stage, &work, words);
    }
    stage.no_more(words);
    match verb {
        "read" => read_journal(stage, &work),
        "finish" => finish_journal(stage, &work),
        _ => stage.stop(Stop::Line),
    }
}
