//! Calls of folder_staging.
ghost use Rattle.std.specs.Prelude.{◌≡◌, IsTrue, None};
ghost use Rattle.folder_spec.specs.Path.{below};
ghost use Rattle.folder_staging.specs.Places.{ArePlacesApart};

use crate::faults::path_fault;
use crate::folders::say_folder;
use folder_model::FPath;
use folder_staging::{
    RemovalFault, begin_folder, place_folder, publish_folder, remove_all, remove_below,
    replace_file, stage_file,
};
use row_playing::{Stage, Stop};
use row_words::cut;

/// Whether neither path is at or below the other.
pub fn are_places_apart(staged: &FPath, at: &FPath) -> bool
    ensures { IsTrue result → ArePlacesApart staged.now at.now }
{
    if at.starts_with(staged) || staged.starts_with(at) {
        return false;
    }
    true
}

/// Whether the second path isn't at or below the first.
pub fn is_not_below(one: &FPath, other: &FPath) -> bool
    ensures { IsTrue result → below one.now other.now ≡ None }
{
    if other.starts_with(one) {
        return false;
    }
    true
}

fn say_removal(stage: &mut Stage, answer: Result<(), RemovalFault>) {
    match answer {
        Ok(()) => stage.done("done"),
        Err(RemovalFault::Depth) => stage.failed("Depth"),
        Err(RemovalFault::Other(at)) => {
            path_fault(&mut stage.said, "Other", at);
            stage.ended(1);
        }
        Err(RemovalFault::Failed) => stage.failed("Failed"),
        Err(RemovalFault::NoMemory) => stage.failed("NoMemory"),
    }
}

fn call_remove(stage: &mut Stage, verb: &str, at: &FPath, rest: &str) {
    stage.no_more(rest);
    if verb == "remove_below" {
        let answer = remove_below(&mut stage.folder, at);
        return say_removal(stage, answer);
    }
    if at.depth() == 0 {
        return stage.stop(Stop::Line);
    }
    let answer = remove_all(&mut stage.folder, at);
    say_removal(stage, answer);
}

fn call_stage_file(stage: &mut Stage, at: &FPath, bytes: &[u8]) {
    if at.depth() == 0 {
        return stage.stop(Stop::Line);
    }
    let answer = stage_file(&mut stage.folder, at, bytes);
    say_folder(stage, answer);
}

// Puts what is staged in its place, of a file with these bytes: `STAGED AT`, `STAGED AT BYTES`.
fn call_publish(stage: &mut Stage, verb: &str, staged: &FPath, at: &FPath, bytes: &[u8]) {
    if staged.depth() == 0 || !are_places_apart(staged, at) {
        return stage.stop(Stop::Line);
    }
    let answer = match verb {
        "publish_folder" => publish_folder(&mut stage.folder, staged, at),
        "place_folder" => place_folder(&mut stage.folder, staged, at),
        _ => replace_file(&mut stage.folder, staged, at, bytes),
    };
    say_folder(stage, answer);
}

/// Plays a line that stages, publishes or removes.
pub fn call_staging(stage: &mut Stage, verb: &str, words: &str) {
    let (first, rest) = cut(words);
    let first = stage.path(first);
    match verb {
        "begin_folder" => {
            stage.no_more(rest);
            let answer = begin_folder(&mut stage.folder, &first);
            say_folder(stage, answer);
        }
        "stage_file" => {
            let bytes = stage.bytes(rest);
            call_stage_file(stage, &first, bytes.as_slice());
        }
        "remove_below" | "remove_all" => call_remove(stage, verb, &first, rest),
        _ => {
            let (at, bytes) = cut(rest);
            let at = stage.path(at);
            if verb == "publish_folder" || verb == "place_folder" {
                stage.no_more(bytes);
            }
            let bytes = stage.bytes(bytes);
            call_publish(stage, verb, &first, &at, bytes.as_slice());
        }
    }
}
