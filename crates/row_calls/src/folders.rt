//! Calls of the folder itself.
use crate::faults::folder_word;
use crate::paths::kind_word;
use folder_model::{FPath, Folder, FolderFault};
use row_playing::{Stage, Stop};
use row_words::cut;

// How many directories or files a line makes at most.
const MOST_MADE: u64 = 10_000;

/// Lets later calls of the folder fail: `fail_at CALL ..`, `fail_append CALL ADDED` an append that adds so many bytes, and
/// `stop EVENT ..` the changing call of that number and all behind it.
pub fn let_fail(stage: &mut Stage, verb: &str, words: &str) {
    let (call, added) = cut(words);
    if verb == "fail_append" {
        let (call, added) = (stage.count(call, u64::MAX), stage.number(added));
        let kept = stage.folder.fail_append_at(call, added);
        return stage.whole(kept);
    }
    for word in words.split(' ') {
        if verb == "stop" {
            let event = stage.number(word);
            stage.folder.stop_at(event);
        } else {
            let call = stage.count(word, u64::MAX);
            let kept = stage.folder.fail_at(call);
            stage.whole(kept);
        }
    }
}

/// Says how a call of the folder ended.
pub fn say_folder(stage: &mut Stage, answer: Result<(), FolderFault>) {
    match answer {
        Ok(()) => stage.done("done"),
        Err(fault) => stage.failed(folder_word(fault)),
    }
}

fn folder_kind(stage: &mut Stage, at: &FPath, rest: &str) {
    stage.no_more(rest);
    match stage.folder.kind(at) {
        Ok(kind) => stage.done(kind_word(kind)),
        Err(fault) => stage.failed(folder_word(fault)),
    }
}

fn folder_list(stage: &mut Stage, at: &FPath, rest: &str) {
    stage.no_more(rest);
    match stage.folder.list(at) {
        Ok(entries) => {
            for entry in &entries {
                stage.said.word(entry.name.as_str());
                stage.said.word(kind_word(entry.kind));
                stage.said.end();
            }
            stage.done("done");
        }
        Err(fault) => stage.failed(folder_word(fault)),
    }
}

// Reads from a place on into so many bytes: `START COUNT`.
fn folder_read(stage: &mut Stage, at: &FPath, words: &str) {
    let (start, count) = cut(words);
    let (start, count) = (stage.number(start), stage.count(count, 4_096) as usize);
    let mut out = [0; 4_096];
    match stage.folder.read(at, start, &mut out[..count]) {
        Ok(count) => {
            stage.status = 0;
            stage.say_bytes(&out[..count]);
        }
        Err(fault) => stage.failed(folder_word(fault)),
    }
}

// Calls that change what stands at a path.
fn change_folder(stage: &mut Stage, verb: &str, at: &FPath, rest: &str) {
    if verb != "append" && verb != "rename" {
        stage.no_more(rest);
    }
    let answer = match verb {
        "make_dir" => stage.folder.make_dir(at),
        "create" => stage.folder.create(at),
        "append" => {
            let piece = stage.bytes(rest);
            stage.folder.append(at, piece.as_slice())
        }
        "sync" => stage.folder.sync(at),
        "rename" => {
            let to = stage.path(rest);
            stage.folder.rename(at, &to)
        }
        "remove_file" => stage.folder.remove_file(at),
        "remove_dir" => stage.folder.remove_dir(at),
        _ => return stage.stop(Stop::Line),
    };
    say_folder(stage, answer);
}

// Places an entry that is neither a file nor a directory, where it may stand.
fn place_in_folder(stage: &mut Stage, at: &FPath, rest: &str) {
    stage.no_more(rest);
    match stage.folder.place(at) {
        Ok(true) => stage.done("done"),
        Ok(false) => stage.failed("Refused"),
        Err(_) => stage.stop(Stop::NoMemory),
    }
}

// The path of an entry that has a number for its name.
fn numbered(stage: &mut Stage, dir: &FPath, number: u64) -> FPath {
    let alloc = stage.alloc;
    let path = match format!(in alloc; "{number}") {
        Ok(name) => dir.child(name.as_str()),
        Err(fault) => Err(fault),
    };
    match path {
        Ok(path) => path,
        Err(_) => {
            stage.stop(Stop::NoMemory);
            FPath::base(alloc)
        }
    }
}

// Makes a directory with so many files of three bytes.
fn fill_directory(stage: &mut Stage, dir: &FPath, files: u64) {
    let made = stage.folder.make_dir(dir);
    stage.well(made);
    for number in 0..files {
        let file = numbered(stage, dir, number);
        let created = stage.folder.create(&file);
        stage.well(created);
        let added = stage.folder.append(&file, b"abc");
        stage.well(added);
    }
    let settled = stage.folder.settle();
    stage.well(settled);
}

// How many of so many files of a directory have these three bytes.
fn count_files(stage: &mut Stage, dir: &FPath) -> u64 {
    let files = match stage.folder.list(dir) {
        Ok(entries) => entries.len() as u64,
        Err(fault) => {
            stage.stop(Stop::from(fault));
            0
        }
    };
    let mut count = 0u64;
    for number in 0..files {
        let file = numbered(stage, dir, number);
        if stage.read(&file).as_slice() == b"abc".as_slice() {
            count = count.saturating_add(1);
        }
    }
    count
}

/// Makes so many directories with so many files each, or says how many files they have: `many DIRECTORIES FILES`,
/// `count_many DIRECTORIES`.
pub fn many(stage: &mut Stage, verb: &str, words: &str) {
    let (dirs, files) = cut(words);
    let dirs = stage.count(dirs, MOST_MADE);
    let base = FPath::base(stage.alloc);
    if verb == "many" {
        let files = stage.count(files, MOST_MADE);
        for number in 0..dirs {
            let dir = numbered(stage, &base, number);
            fill_directory(stage, &dir, files);
        }
        return;
    }
    stage.no_more(files);
    let mut count = 0u64;
    for number in 0..dirs {
        let dir = numbered(stage, &base, number);
        count = count.saturating_add(count_files(stage, &dir));
    }
    stage.said.shows(&count);
    stage.said.end();
}

/// Makes so many directories below a path, each in the one before: `AT NAME COUNT`.
pub fn deep(stage: &mut Stage, words: &str) {
    let (at, words) = cut(words);
    let (name, count) = cut(words);
    let mut here = stage.path(at);
    for _ in 0..stage.count(count, MOST_MADE) {
        match here.child(name) {
            Ok(below) => here = below,
            Err(_) => return stage.stop(Stop::NoMemory),
        }
        let made = stage.folder.make_dir(&here);
        stage.well(made);
    }
}

/// Plays `folder CALL PATH ..`.
pub fn call_folder(stage: &mut Stage, words: &str) {
    let (verb, words) = cut(words);
    if verb == "settle" {
        stage.no_more(words);
        let answer = stage.folder.settle();
        return say_folder(stage, answer);
    }
    let (at, rest) = cut(words);
    let at = stage.path(at);
    match verb {
        "kind" => folder_kind(stage, &at, rest),
        "list" => folder_list(stage, &at, rest),
        "read" => folder_read(stage, &at, rest),
        "place" => place_in_folder(stage, &at, rest),
        _ => change_folder(stage, verb, &at, rest),
    }
}
