//! One line on the terminal that tells how far a long run has come.

use std::alloc::{AllocError, Global};
use std::io::Write;
use std::time::{Duration, Instant};

// How many seconds a run goes on before the line is shown, and how many milliseconds between two lines.
const PATIENCE: u64 = 1;

const PAUSE: u64 = 250;

// What brings a terminal back to the line's start and clears it.
const CLEAR: &str = "\r\x1b[K";

// What keeps a line that is longer than a terminal is wide from going on below, where it couldn't be cleared; and what ends that.
const CUT: &str = "\x1b[?7l";

const WRAP: &str = "\x1b[?7h";

const MEGABYTE: u64 = 1_000_000;

/// What a run has done since it began, and the line that shows it, where it is to be shown.
#[derive(Drop)]
pub struct SignOfLife {
    start: Option<Instant>,
    shown: Option<Duration>,
    placed: u64,
    read: u64,
    written: u64,
}

impl SignOfLife {
    /// Shows nothing.
    pub fn hidden() -> SignOfLife {
        SignOfLife {
            start: None,
            shown: None,
            placed: 0,
            read: 0,
            written: 0,
        }
    }

    /// Shows the line from here on, once the run has gone on for a second.
    pub fn show(&mut self, rt: &HostRuntime) {
        self.start = Instant::now(rt).ok();
    }

    pub fn count_placed(&mut self) {
        self.placed = self.placed.saturating_add(1);
    }

    pub fn count_read(&mut self, bytes: usize) {
        self.read = self.read.saturating_add(bytes as u64);
    }

    pub fn count_written(&mut self, bytes: usize) {
        self.written = self.written.saturating_add(bytes as u64);
    }

    /// Shows how far the run has come, unless it was shown just now.
    pub fn beat(&mut self, rt: &HostRuntime, alloc: Global) {
        let Some(start) = self.start else {
            return;
        };
        let Ok(since) = start.elapsed(rt) else {
            return;
        };
        if self.is_due(since) {
            self.shown = Some(since);
            if let Ok(line) = self.line(alloc, since) {
                put(rt, line.as_str());
            }
        }
    }

    fn is_due(&self, since: Duration) -> bool {
        match self.shown {
            None => is_late(since),
            Some(shown) => since.saturating_sub(shown) >= Duration::from_millis(PAUSE),
        }
    }

    fn line(&self, alloc: Global, since: Duration) -> Result<String, AllocError> {
        let placed = self.placed;
        let read = self.read / MEGABYTE;
        let written = self.written / MEGABYTE;
        let seconds = since.as_secs();
        format!(in alloc;
            "{CLEAR}{CUT}{placed} files placed, {read} MB read, {written} MB written, {seconds} s{WRAP}"
        )
    }

    /// Takes the line off the terminal, before anything else is printed.
    pub fn wipe(&mut self, rt: &HostRuntime) {
        if self.shown.is_some() {
            self.shown = None;
            clear_line(rt);
        }
    }
}

/// Whether a run that has gone on for so long shows how far it has come.
pub fn is_late(since: Duration) -> bool {
    since >= Duration::from_secs(PATIENCE)
}

/// Clears the line of the terminal that standard error is.
pub fn clear_line(rt: &HostRuntime) {
    put(rt, CLEAR);
}

// Writes to the terminal, whatever becomes of it.
fn put(rt: &HostRuntime, text: &str) {
    let _ = rt.stderr().write_all(text.as_bytes());
}
