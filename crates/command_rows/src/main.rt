//! Reads rows from the files that its arguments name, plays each over a folder in memory, and prints whether it comes to what it expects.
#![tactic(auto)]

mod commands;
mod layer;
mod moving;

use commands::Commands;
use row_playing::Book;
use std::process::ExitCode;
use std::{env, fs, io};

fn main(rt: HostRuntime) -> ExitCode {
    match play_files(&rt) {
        Ok(true) => ExitCode::from(0),
        Ok(false) => ExitCode::from(1),
        Err(_) => ExitCode::from(3),
    }
}

// Takes a line, and prints what comes of it.
fn play_line(rt: &HostRuntime, book: &mut Book, line: &str) -> io::Result<()> {
    let said = book.take::<Commands>(line)?;
    print!(rt; "{said}")
}

// Plays the rows of a file.
fn play_file(rt: &HostRuntime, book: &mut Book, name: &str) -> io::Result<()> {
    let text = fs::read_to_string(rt, name)?;
    book.open(name)?;
    for line in text.as_str().lines() {
        play_line(rt, book, line)?;
    }
    let said = book.close::<Commands>(text.as_str())?;
    print!(rt; "{said}")
}

// Plays the rows of each file, and says whether all are right. What is a surprise is named again beside.
fn play_files(rt: &HostRuntime) -> io::Result<bool> {
    let mut book = Book::new(rt.alloc());
    for name in env::args(rt)?.skip(1) {
        play_file(rt, &mut book, name.as_str())?;
    }
    let said = book.finish()?;
    print!(rt; "{said}")?;
    let surprises = book.surprises();
    eprint!(rt; "{surprises}")?;
    Ok(book.is_right())
}
