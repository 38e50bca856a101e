//! Files read and written piece by piece.

ghost use Rattle.std.specs.Prelude.{◌≤◌, IfErr, IfOk, length};
ghost use Rattle.host_places.specs.Causes.{IsFailure};

use crate::causes::{Cause, number_of};
use std::fs::File;
use std::io;
use std::io::{ErrorKind, Read, Write};
use std::os::unix::fs::FileExt;

/// Reads into the front of `out` until it is full or the file has ended, and answers how many bytes.
pub fn fill<F: Read>(file: &mut F, out: &mut [u8]) -> Result<usize, Cause>
    ensures within { IfOk result (λ n. n ≤ length out.old) }
    ensures failed { IfErr result IsFailure }
{
    let mut count = 0;
    while count < out.len() {
        match read_again(file, &mut out[count..]) {
            Ok(0) => break,
            Ok(n) => count += n,
            Err(error) => return Err(Cause::Machine(error.kind(), number_of(&error))),
        }
    }
    Ok(count)
}

/// Reads the file's bytes from `start` on, as `fill` does.
pub fn fill_from(file: &File, start: u64, out: &mut [u8]) -> Result<usize, Cause>
    ensures within { IfOk result (λ n. n ≤ length out.old) }
    ensures failed { IfErr result IsFailure }
{
    let mut filled = 0;
    while filled < out.len() {
        match read_at_again(
            file,
            &mut out[filled..],
            start.saturating_add(filled as u64),
        ) {
            Ok(0) => break,
            Ok(n) => filled += n,
            Err(error) => return Err(Cause::Machine(error.kind(), number_of(&error))),
        }
    }
    Ok(filled)
}

/// Writes the whole piece.
pub fn put<W: Write>(file: &mut W, piece: &[u8]) -> Result<(), Cause>
    ensures { IfErr result IsFailure }
{
    let mut at = 0;
    while at < piece.len() {
        match write_again(file, &piece[at..]) {
            Ok(0) => return Err(Cause::Machine(ErrorKind::WriteZero, 0)),
            Ok(n) => at += n,
            Err(error) => return Err(Cause::Machine(error.kind(), number_of(&error))),
        }
    }
    Ok(())
}

// How often a call is made that is interrupted each time.
const TRIES: u32 = 64;

fn is_interrupted<T>(answer: &io::Result<T>) -> bool {
    match answer {
        Err(error) => error.kind() == ErrorKind::Interrupted,
        Ok(_) => false,
    }
}

// Reads once, and again where that is interrupted.
fn read_again<F: Read>(file: &mut F, out: &mut [u8]) -> io::Result<usize>
    ensures { IfOk result (λ n. n ≤ length out.old) }
{
    for _ in 1..TRIES {
        let answer = file.read(out);
        if !is_interrupted(&answer) {
            return answer;
        }
    }
    file.read(out)
}

// Reads once from a place on, and again where that is interrupted.
fn read_at_again(file: &File, out: &mut [u8], start: u64) -> io::Result<usize>
    ensures { IfOk result (λ n. n ≤ length out.old) }
{
    for _ in 1..TRIES {
        let answer = file.read_at(out, start);
        if !is_interrupted(&answer) {
            return answer;
        }
    }
    file.read_at(out, start)
}

// Writes once, and again where that is interrupted.
fn write_again<W: Write>(file: &mut W, piece: &[u8]) -> io::Result<usize>
    ensures { IfOk result (λ n. n ≤ length piece.now) }
{
    for _ in 1..TRIES {
        let answer = file.write(piece);
        if !is_interrupted(&answer) {
            return answer;
        }
    }
    file.write(piece)
}

/// Syncs a file or directory that is open, and again where that is interrupted.
pub fn sync_again(file: &File) -> io::Result<()> {
    for _ in 1..TRIES {
        let answer = file.sync_all();
        if !is_interrupted(&answer) {
            return answer;
        }
    }
    file.sync_all()
}
