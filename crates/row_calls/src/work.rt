//! Calls of work_folder.
use crate::faults::work_fault;
use crate::folders::say_folder;
use crate::staging::are_places_apart;
use folder_model::FPath;
use row_playing::{Stage, Stop};
use row_words::cut;
use work_folder::{Work, WorkFault, set_file};

fn say_work_fault(stage: &mut Stage, fault: WorkFault) {
    work_fault(&mut stage.said, fault);
    stage.ended(1);
}

fn say_looked(stage: &mut Stage, answer: Result<(), WorkFault>) {
    match answer {
        Ok(()) => stage.done("done"),
        Err(fault) => say_work_fault(stage, fault),
    }
}

// Says where the work folder is that was entered.
fn say_work(stage: &mut Stage, answer: Result<Work, WorkFault>) {
    match answer {
        Ok(work) => {
            stage.said.made(work.at().text());
            stage.ended(0);
        }
        Err(fault) => say_work_fault(stage, fault),
    }
}

// Enters a work folder in which items are to be made.
pub fn entered(stage: &mut Stage, at: &FPath) -> Option<Work> {
    let entered = Work::enter(&mut stage.folder, at);
    if entered.is_err() {
        stage.stop(Stop::Vault);
    }
    entered.ok()
}

// Enters a work folder, and sets a file from there: `WORK AT BYTES`.
fn call_set(stage: &mut Stage, words: &str) {
    let (work, words) = cut(words);
    let (at, bytes) = cut(words);
    let work = stage.path(work);
    let at = stage.path(at);
    let bytes = stage.bytes(bytes);
    let Some(work) = entered(stage, &work) else {
        return;
    };
    if !are_places_apart(work.at(), &at) {
        return stage.stop(Stop::Line);
    }
    let answer = set_file(&mut stage.folder, &work, &at, bytes.as_slice());
    say_folder(stage, answer);
}

/// Plays `work look AT`, `work enter AT`, `work look_again AT`, `work look_again AT old`, `work again AT` and `work set WORK AT BYTES`.
pub fn call_work(stage: &mut Stage, words: &str) {
    let (verb, words) = cut(words);
    if verb == "set" {
        return call_set(stage, words);
    }
    let (at, old) = cut(words);
    let at = stage.path(at);
    if verb != "look_again" || old != "old" {
        stage.no_more(old);
    }
    match verb {
        "look" => {
            let answer = Work::look(&mut stage.folder, &at);
            say_looked(stage, answer);
        }
        "enter" => {
            let answer = Work::enter(&mut stage.folder, &at);
            say_work(stage, answer);
        }
        "look_again" => {
            let answer = Work::look_again(&mut stage.folder, &at, old == "old");
            say_looked(stage, answer);
        }
        "again" => {
            let answer = Work::again(&mut stage.folder, &at);
            say_work(stage, answer);
        }
        _ => stage.stop(Stop::Line),
    }
}
