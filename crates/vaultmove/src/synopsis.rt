//! What is told of the commands where words make none.

use command_words::rows::{Kind, Row, Word, rows};
use std::alloc::{AllocError, Global};
use std::io::Write;

/// Says on the terminal which words the command of this name takes, or the names of all commands, as far as there is memory for it.
pub fn tell_commands(rt: &HostRuntime, name: Option<&str>) {
    if let Ok(text) = told_of(rt.alloc(), name) {
        let _ = rt.stderr().write_all(text.as_bytes());
    }
}

fn told_of(alloc: Global, name: Option<&str>) -> Result<String, AllocError> {
    match row_of(name) {
        Some(row) => synopsis(alloc, row),
        None => names_text(alloc),
    }
}

fn row_of(name: Option<&str>) -> Option<&'static Row> {
    let name = name?;
    rows().iter().find(|row| row.name == name)
}

// A line for each command.
fn names_text(alloc: Global) -> Result<String, AllocError> {
    let mut text = String::new(alloc);
    for row in rows() {
        let (name, line) = (row.name, row.line);
        text.push_str(format!(in alloc; "{name}: {line}\n")?.as_str())?;
    }
    Ok(text)
}

// The words of a command, as they are typed.
fn synopsis(alloc: Global, row: &Row) -> Result<String, AllocError> {
    let mut text = String::from_str(alloc, "vaultmove ")?;
    text.push_str(row.name)?;
    for word in row.words {
        text.push_str(" ")?;
        push_word(&mut text, word)?;
    }
    for option in row.options {
        let (name, value) = (option.name, option.value.shown);
        text.push_str(format!(in alloc; " {name} {value}")?.as_str())?;
    }
    for flag in row.flags {
        let name = flag.name;
        text.push_str(format!(in alloc; " [{name}]")?.as_str())?;
    }
    text.push_str("\n")?;
    Ok(text)
}

fn push_word(text: &mut String, word: &Word) -> Result<(), AllocError> {
    match word.kind {
        Kind::PlainPathOrRoot => {
            text.push_str("[")?;
            text.push_str(word.shown)?;
            text.push_str("]")
        }
        _ => text.push_str(word.shown),
    }
}
