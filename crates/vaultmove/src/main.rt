//! The program: the command line over the working directory, between the standard streams.
#![tactic(auto)]

mod claiming;
mod open_to_others;
mod streams;
mod synopsis;
mod terminal;

use crate::claiming::claim;
use crate::open_to_others::tell_open;
use crate::streams::{WipedSink, tell};
use crate::synopsis::tell_commands;
use crate::terminal::ShownSink;
use command_answers::{Answer, report};
use command_words::Request;
use host_ports::{HostFolder, HostRandoms};
use port_model::{StdSink, StdSource};
use std::io::IsTerminal;
use std::process::ExitCode;
use std::{env, io};
use vault_cli::run;

// The status of words that make no command, and of a run whose folder failed.
const BAD_COMMAND_LINE: u8 = 2;

const FOLDER_FAULT: u8 = 4;

fn main(rt: HostRuntime) -> ExitCode {
    match status(&rt) {
        Ok(status) => ExitCode::from(status),
        Err(answer) => {
            let mut err = StdSink::new(rt.stderr());
            let status = report(rt.alloc(), answer, &mut err).status();
            explain_words(&rt, status, None);
            ExitCode::from(status)
        }
    }
}

// Runs the command that the words make.
fn status(rt: &HostRuntime) -> Result<u8, Answer> {
    let words = words(rt)?;
    let mut folder = HostFolder::new(rt.clone()?, rt.alloc(), "")?;
    let streams = claim_words(rt, words.as_slice(), &mut folder)?;
    let status = status_of(rt, words.as_slice(), streams, &mut folder)?;
    explain_words(rt, status, words.first());
    Ok(status)
}

// Claims what the command of these words may change, and tells whether it prints before all is done: then what it prints are contents.
fn claim_words(
    rt: &HostRuntime,
    words: &[String],
    folder: &mut HostFolder,
) -> Result<bool, Answer> {
    let Some(request) = Request::read(rt.alloc(), words)? else {
        return Ok(false);
    };
    claim(rt.alloc(), &request, folder)?;
    if rt.stderr().is_terminal() {
        tell_open(rt, &request, folder);
    }
    Ok(request.row().streams)
}

fn status_of(
    rt: &HostRuntime,
    words: &[String],
    streams: bool,
    folder: &mut HostFolder,
) -> Result<u8, Answer> {
    let terminal = rt.stderr().is_terminal();
    let shared = terminal && rt.stdout().is_terminal();
    let shows = terminal && !(shared && streams) && clears_lines(rt);
    if shows {
        folder.show_life();
    }
    let status = run_in(rt, words, streams, folder, shows)?;
    folder.wipe();
    if status == FOLDER_FAULT && (terminal || wants_cause(rt)) {
        tell(rt, folder);
    }
    Ok(status)
}

// Says on a terminal which words make a command, where these make none.
fn explain_words(rt: &HostRuntime, status: u8, name: Option<&String>) {
    if status == BAD_COMMAND_LINE && rt.stderr().is_terminal() {
        tell_commands(rt, name.map(|name| name.as_str()));
    }
}

// Whether the cause of a fault of the folder is asked for where no terminal is: by VAULTMOVE_CAUSE, with exactly this value.
fn wants_cause(rt: &HostRuntime) -> bool {
    match env::var(rt, "VAULTMOVE_CAUSE") {
        Ok(value) => value.as_str() == "1",
        Err(_) => false,
    }
}

// Whether a line on the terminal can be cleared again: not where TERM is `dumb`.
fn clears_lines(rt: &HostRuntime) -> bool {
    match env::var(rt, "TERM") {
        Ok(name) => name.as_str() != "dumb",
        Err(_) => true,
    }
}

// Runs the command over the folder. Where the folder shows on the terminal how far it has come, its line is wiped before anything else
// is printed there. A terminal gets no control character of a name; contents that it is given stand as they are.
fn run_in(
    rt: &HostRuntime,
    words: &[String],
    streams: bool,
    folder: &mut HostFolder,
    shows: bool,
) -> Result<u8, Answer> {
    let (out_terminal, err_terminal) = (rt.stdout().is_terminal(), rt.stderr().is_terminal());
    let mut random = HostRandoms::new(rt.clone()?);
    let mut input = StdSource::new(rt.stdin());
    let out = ShownSink::new(StdSink::new(rt.stdout()), out_terminal && !streams);
    let mut out = WipedSink::new(out, rt, shows && out_terminal);
    let err = ShownSink::new(StdSink::new(rt.stderr()), err_terminal);
    let mut err = WipedSink::new(err, rt, shows);
    Ok(run(
        rt.alloc(),
        words,
        folder,
        &mut random,
        &mut input,
        &mut out,
        &mut err,
    ))
}

// The words after the program's name. Words that aren't UTF-8 make no command.
fn words(rt: &HostRuntime) -> Result<Vec<String>, Answer> {
    let all = env::args(rt).map_err(|e| match e.kind() {
        io::ErrorKind::OutOfMemory => Answer::OutOfMemory,
        _ => Answer::BadCommandLine,
    })?;
    all.skip(1)
        .collect(rt.alloc())
        .map_err(|_| Answer::OutOfMemory)
}
