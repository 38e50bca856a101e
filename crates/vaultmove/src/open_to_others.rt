//! What is told on a terminal of what others than its owner may use.

use crate::streams::{place_of, tell_line};
use command_words::Request;
use command_words::rows::{Kind, Word};
use folder_model::FPath;
use host_ports::HostFolder;
use std::alloc::{AllocError, Global};

// The bits of a mode by which others may read, and write.
const READ: u32 = 0o044;

const WRITE: u32 = 0o022;

// How the words of commands show a passphrase file.
const FILE: &str = "FILE";

/// Says once which folders of a command's words others may write, and which passphrase files they may read, as far as there is memory for it.
pub fn tell_open(rt: &HostRuntime, request: &Request, folder: &HostFolder) {
    let row = request.row();
    let mut number = 0;
    for word in row.words {
        tell_open_at(rt, request, folder, number, word);
        number = number.saturating_add(1);
    }
    for option in row.options {
        tell_open_at(rt, request, folder, number, &option.value);
        number = number.saturating_add(1);
    }
}

fn tell_open_at(
    rt: &HostRuntime,
    request: &Request,
    folder: &HostFolder,
    number: usize,
    word: &Word,
) {
    let (Some(at), Kind::FolderPath) = (request.folder(number), word.kind) else {
        return;
    };
    if is_among(request, number, at) {
        return;
    }
    let (bits, what) = if word.shown == FILE {
        (READ, "others may read it")
    } else {
        (WRITE, "others may write it")
    };
    if folder.mode_at(at).unwrap_or(0) & bits != 0 {
        if let Ok(line) = line_of(rt.alloc(), at, what) {
            tell_line(rt, line.as_str());
        }
    }
}

// Whether a path is that of a value before the one with this number.
fn is_among(request: &Request, number: usize, at: &FPath) -> bool {
    (0..number).any(|earlier| match request.folder(earlier) {
        Some(path) => path.is(at),
        None => false,
    })
}

fn line_of(alloc: Global, at: &FPath, what: &str) -> Result<String, AllocError> {
    let place = place_of(alloc, at)?;
    format!(in alloc; "vaultmove: {place}: {what}\n")
}
