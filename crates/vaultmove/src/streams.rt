//! The standard streams beside a line that a folder shows on the terminal.

use crate::terminal::ShownSink;
use command_answers::shown_folder;
use folder_model::FPath;
use host_places::Trouble;
use host_ports::{HostFolder, clear_line, is_late};
use port_model::{Sink, SinkFault, StdSink};
use std::alloc::{AllocError, Global};
use std::io::IsTerminal;
use std::time::Instant;

/// A sink before whose pieces the line is taken off the terminal, where it may stand there.
#[derive(Drop)]
pub struct WipedSink<'a, S: Sink> {
    inner: S,
    rt: &'a HostRuntime,
    start: Option<Instant>,
}

impl<'a, S: Sink> WipedSink<'a, S> {
    pub fn new(inner: S, rt: &'a HostRuntime, wipes: bool) -> WipedSink<'a, S> {
        let start = if wipes { Instant::now(rt).ok() } else { None };
        WipedSink { inner, rt, start }
    }
}

impl<'a, S: Sink> Sink for WipedSink<'a, S> {
    ghost taken = { λ s. S.taken s.inner };

    ghost faults = { λ s. S.faults s.inner };

    fn put(&mut self, piece: &[u8]) -> Result<(), SinkFault> {
        if let Some(start) = self.start {
            wipe_late(self.rt, start);
        }
        self.inner.put(piece)
    }
}

// Clears the line of the terminal where a run has gone on long enough to show one.
fn wipe_late(rt: &HostRuntime, start: Instant) {
    if let Ok(since) = start.elapsed(rt) {
        if is_late(since) {
            clear_line(rt);
        }
    }
}

/// Says on standard error where and why the machine failed a call, as far as there is memory for it.
pub fn tell(rt: &HostRuntime, folder: &HostFolder) {
    if let Some(trouble) = folder.trouble() {
        if let Ok(line) = line_of(rt.alloc(), trouble) {
            tell_line(rt, line.as_str());
        }
    }
}

/// Writes a line to standard error, whatever becomes of it.
pub fn tell_line(rt: &HostRuntime, line: &str) {
    let shows = rt.stderr().is_terminal();
    let _ = ShownSink::new(StdSink::new(rt.stderr()), shows).put(line.as_bytes());
}

fn line_of(alloc: Global, trouble: &Trouble) -> Result<String, AllocError> {
    let message = trouble.cause.message(alloc)?;
    match &trouble.at {
        Some(at) => {
            let place = place_of(alloc, at)?;
            format!(in alloc; "vaultmove: {place}: {message}\n")
        }
        None => format!(in alloc; "vaultmove: {message}\n"),
    }
}

/// The path as messages show it, and the base as a dot.
pub fn place_of(alloc: Global, at: &FPath) -> Result<String, AllocError> {
    if at.depth() == 0 {
        String::from_str(alloc, ".")
    } else {
        shown_folder(alloc, at)
    }
}
