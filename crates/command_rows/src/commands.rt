//! Lines that run the program's commands.
use crate::layer::layer;
use row_calls::places::{WORK, need_done, place};
use row_playing::{Player, Stage, Stop};
use row_words::cut;
use std::alloc::{AllocError, Global};
use vault_cli::{demo_in, run};

/// Plays what the stage doesn't know: the commands, vaults and the layers below.
pub struct Commands;

impl Player for Commands {
    fn play(stage: &mut Stage, verb: &str, words: &str) {
        match verb {
            "run" => run_words(stage, words),
            "else" => run_else(stage, words),
            "demo" => demo(stage, words),
            "mkdir" | "put" => make_item(stage, verb, words),
            "vault" | "item" | "inside" | "tree" => place(stage, verb, words),
            _ => layer(stage, verb, words),
        }
    }
}

// The words of a run.
fn words_of(alloc: Global, text: &str) -> Result<Vec<String>, AllocError> {
    let mut words = Vec::new(alloc);
    if text.is_empty() {
        return Ok(words);
    }
    for word in text.split(' ') {
        words.push(String::from_str(alloc, word)?)?;
    }
    Ok(words)
}

// Runs words, and says the status, and what both streams took.
fn run_words(stage: &mut Stage, text: &str) {
    let Ok(words) = words_of(stage.alloc, text) else {
        return stage.stop(Stop::NoMemory);
    };
    let Ok(mut handed) = stage.hand() else {
        return stage.stop(Stop::NoMemory);
    };
    let status = run(
        stage.alloc,
        words.as_slice(),
        &mut stage.folder,
        &mut handed.random,
        &mut handed.input,
        &mut handed.out,
        &mut handed.err,
    );
    stage.take_back(&mut handed);
    stage.say_run(status, handed.out.sink.bytes(), handed.err.sink.bytes());
}

// Runs words where the last run's status isn't 0.
fn run_else(stage: &mut Stage, text: &str) {
    if text.is_empty() {
        return stage.stop(Stop::Line);
    }
    if stage.status != 0 {
        run_words(stage, text);
    }
}

// Runs a demonstration of `SEED COUNT` in the folder.
fn demo(stage: &mut Stage, words: &str) {
    let (seed, count) = cut(words);
    let (seed, count) = (stage.number(seed), stage.count(count, 2_000));
    if count == 0 {
        return;
    }
    let Ok(mut handed) = stage.hand() else {
        return stage.stop(Stop::NoMemory);
    };
    let status = demo_in(
        stage.alloc,
        &mut stage.folder,
        seed,
        count as u32,
        &mut handed.out,
        &mut handed.err,
    );
    stage.take_back(&mut handed);
    stage.say_run(status, handed.out.sink.bytes(), handed.err.sink.bytes());
}

// Makes a directory, or stores a file: `mkdir VAULT PATH`, `put VAULT PATH BYTES`.
fn make_item(stage: &mut Stage, verb: &str, words: &str) {
    let alloc = stage.alloc;
    let (vault, words) = cut(words);
    let (path, bytes) = cut(words);
    if verb == "put" {
        stage.input = stage.bytes(bytes);
    } else {
        stage.no_more(bytes);
    }
    match format!(in alloc; "{verb} {vault} {path} --pass p --work {WORK}") {
        Ok(words) => run_words(stage, words.as_str()),
        Err(_) => stage.stop(Stop::NoMemory),
    }
    need_done(stage);
}
