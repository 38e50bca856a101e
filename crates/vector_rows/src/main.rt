//! Reads the rows of files, each a call of a crate with the answer that is expected, and says which are right.
#![tactic(auto)]

mod aes;
mod answer;
mod arguments;
mod calls;
mod configurations;
mod contents;
mod gcm;
mod keys;
mod laws;
mod modes;
mod names;
mod paths;
mod ports;
mod rows;
mod texts;

use row_words::{Tally, must_be_wrong, sum_of};
use std::process::ExitCode;
use std::rt::{Env, Files};
use std::{env, fs, io};

fn main(rt: HostRuntime) -> ExitCode {
    match play_files(&rt) {
        Ok(true) => ExitCode::from(0),
        Ok(false) => ExitCode::from(1),
        Err(fault) => {
            let _ = eprintln!(rt; "{fault}");
            ExitCode::from(2)
        }
    }
}

// Plays the rows of each file that the program's words name, and says whether all are right.
fn play_files<R: Env + Files + Print + Eprint + AllocGlobal>(rt: &R) -> io::Result<bool> {
    let mut are_right = true;
    for file in env::args(rt)?.skip(1) {
        let mut tally = Tally::new(rt.alloc());
        play(rt, &mut tally, file.as_str())?;
        if tally.wrong() != 0 {
            are_right = false;
        }
    }
    Ok(are_right)
}

// Plays the rows of a file. It prints the wrong ones, how many were right and wrong, and the sum of the file's text. What is a surprise
// stands on standard error: wrong rows, or the right ones of a file whose rows are to be found wrong.
fn play<R: Files + Print + Eprint + AllocGlobal>(
    rt: &R,
    tally: &mut Tally,
    file: &str,
) -> io::Result<()> {
    let text = fs::read_to_string(rt, file)?;
    play_lines(rt, tally, file, text.as_str())?;
    let (right, wrong) = (tally.right(), tally.wrong());
    let sum = sum_of(rt.alloc(), text.as_bytes())?;
    if !must_be_wrong(file) {
        let names = tally.wrong_names(rt.alloc())?;
        eprint!(rt; "{names}")?;
    }
    println!(rt; "{file}: {right} rows right, {wrong} wrong, sha256 {sum}")
}

fn play_lines<R: Print + Eprint + AllocGlobal>(
    rt: &R,
    tally: &mut Tally,
    file: &str,
    text: &str,
) -> io::Result<()> {
    let mut given = rows::Given::new(rt.alloc());
    for (place, line) in text.lines().enumerate() {
        let place = place.saturating_add(1);
        play_line(rt, tally, &mut given, file, place, line)?;
    }
    let unused = given.end(tally, file)?;
    print!(rt; "{unused}")
}

fn play_line<R: Print + Eprint + AllocGlobal>(
    rt: &R,
    tally: &mut Tally,
    given: &mut rows::Given,
    file: &str,
    place: usize,
    line: &str,
) -> io::Result<()> {
    let before = tally.right();
    let said = given.play(tally, file, place, line)?;
    if must_be_wrong(file) && tally.right() > before {
        eprintln!(rt; "right: {file}:{place}")?;
    }
    print!(rt; "{said}")
}
