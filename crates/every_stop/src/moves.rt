//! Plays lines that make a folder and run commands in it.
use row_calls::places::place;
use row_playing::{Player, Stage, Stop};
use std::alloc::{AllocError, Global};
use vault_cli::run;

/// Plays what the stage doesn't know: the commands, vaults, and what stands in both.
pub struct Moves;

impl Player for Moves {
    fn play(stage: &mut Stage, verb: &str, words: &str) {
        match verb {
            "run" => run_words(stage, words),
            "vaults" => {
                stage.look("list", "g");
                stage.look("list", "k");
            }
            _ => place(stage, verb, words),
        }
    }
}

// The words of a run.
fn words_of(alloc: Global, text: &str) -> Result<Vec<String>, AllocError> {
    let mut words = Vec::new(alloc);
    for word in text.split(' ') {
        words.push(String::from_str(alloc, word)?)?;
    }
    Ok(words)
}

// Runs words, and says the status, and what both streams took.
fn run_words(stage: &mut Stage, text: &str) {
    let Ok(words) = words_of(stage.alloc, text) else {
        return stage.stop(Stop::NoMemory);
    };
    let Ok(mut handed) = stage.hand() else {
        return stage.stop(Stop::NoMemory);
    };
    let status = run(
        stage.alloc,
        words.as_slice(),
        &mut stage.folder,
        &mut handed.random,
        &mut handed.input,
        &mut handed.out,
        &mut handed.err,
    );
    stage.take_back(&mut handed);
    stage.say_run(status, handed.out.sink.bytes(), handed.err.sink.bytes());
}

/// What a line says, with the texts that its names stand for, or why it can't be played.
pub fn said(stage: &mut Stage, line: &str) -> Result<String, Stop> {
    match stage.names.expand(line)? {
        Some(line) => stage.play::<Moves>(line.as_str()),
        None => Err(Stop::Line),
    }
}

/// Plays lines that say nothing and have no names, and says whether all can be played.
pub fn can_play(stage: &mut Stage, lines: &str) -> bool {
    for line in lines.lines() {
        if stage.play::<Moves>(line).is_err() {
            return false;
        }
    }
    true
}
