//! Paths of folders, and entries of directories.
use folder_model::{Entry, FPath, Kind};
use row_playing::{Stage, Stop};
use row_words::{cut, push_text};
use std::alloc::{AllocError, Global};

/// How a kind is said.
pub fn kind_word(kind: Kind) -> &'static str {
    match kind {
        Kind::Missing => "Missing",
        Kind::Dir => "Dir",
        Kind::File => "File",
        Kind::Other => "Other",
    }
}

// Says a path that was made.
fn say_path(stage: &mut Stage, at: Result<FPath, AllocError>) {
    match at {
        Ok(at) if at.depth() == 0 => stage.said.word("the base"),
        Ok(at) => stage.said.made(at.text()),
        Err(_) => stage.said.lacks(),
    }
    stage.ended(0);
}

fn say_truth(stage: &mut Stage, is: bool) {
    stage.done(if is { "yes" } else { "no" });
}

// The bytes of a path as a text.
fn shown_path(alloc: Global, at: &FPath) -> Result<String, AllocError> {
    let mut text = String::new(alloc);
    push_text(&mut text, at.text()?.as_bytes())?;
    Ok(text)
}

// Reads a path from bytes, and says its bytes.
fn read_path(stage: &mut Stage, word: &str) {
    let Ok(text) = String::from_utf8(stage.bytes(word)) else {
        return stage.stop(Stop::Line);
    };
    match FPath::parse(stage.alloc, text.as_str()) {
        Ok(path) => {
            let shown = shown_path(stage.alloc, &path);
            stage.said.made(shown);
            stage.ended(0);
        }
        Err(_) => stage.failed("BadPath"),
    }
}

// Says the parts of a path that was made from its parts.
fn say_parts(stage: &mut Stage, path: &FPath) {
    let Ok(path) = path.copy() else {
        return stage.stop(Stop::NoMemory);
    };
    let again = FPath::from_parts(path.into_parts());
    for part in again.parts() {
        stage.done(part.as_str());
    }
}

fn of_path(stage: &mut Stage, verb: &str, path: &FPath, other: &str) {
    match verb {
        "child" => return say_path(stage, path.child(other)),
        "is" => {
            let is = path.is(&stage.path(other));
            return say_truth(stage, is);
        }
        "starts_with" => {
            let starts = path.starts_with(&stage.path(other));
            return say_truth(stage, starts);
        }
        _ => stage.no_more(other),
    }
    match verb {
        "depth" => {
            stage.said.shows(&path.depth());
            stage.ended(0);
        }
        "parent" => say_path(stage, path.parent()),
        "copy" => say_path(stage, path.copy()),
        "parts" => say_parts(stage, path),
        _ => stage.stop(Stop::Line),
    }
}

// Makes an entry: `NAME KIND`.
fn make_entry(stage: &mut Stage, words: &str) {
    let (name, kind) = cut(words);
    let kind = match kind {
        "dir" => Kind::Dir,
        "file" => Kind::File,
        _ => return stage.stop(Stop::Line),
    };
    match String::from_str(stage.alloc, name) {
        Ok(name) => {
            let entry = Entry::new(name, kind);
            stage.said.word(entry.name.as_str());
            stage.said.word(kind_word(entry.kind));
        }
        Err(_) => stage.said.lacks(),
    }
    stage.ended(0);
}

/// Plays `path read BYTES`, `path depth P`, `path starts_with P Q` and their like, and `entry NAME KIND`.
pub fn call_paths(stage: &mut Stage, verb: &str, words: &str) {
    if verb == "entry" {
        return make_entry(stage, words);
    }
    let (verb, words) = cut(words);
    if verb == "read" {
        return read_path(stage, words);
    }
    let (path, other) = cut(words);
    let path = stage.path(path);
    of_path(stage, verb, &path, other);
}
