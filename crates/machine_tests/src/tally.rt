//! How often each kind of call was made, and what came of it.

use crate::acting::ACTS;
use folder_model::FolderFault;
use std::io;

// How often a kind of call was done, was refused and failed.
#[derive(Clone, Copy)]
struct Counts {
    done: u32,
    refused: u32,
    failed: u32,
}

/// The counts of all kinds of calls.
#[derive(Drop)]
pub struct Tally {
    counts: [Counts; 8],
}

impl Tally {
    pub fn new() -> Tally {
        let none = Counts {
            done: 0,
            refused: 0,
            failed: 0,
        };
        Tally { counts: [none; 8] }
    }

    pub fn count(&mut self, number: usize, answer: Result<(), FolderFault>) {
        if let Some(counts) = self.counts.get_mut(number) {
            match answer {
                Ok(()) => counts.done = counts.done.saturating_add(1),
                Err(FolderFault::Refused) => counts.refused = counts.refused.saturating_add(1),
                Err(_) => counts.failed = counts.failed.saturating_add(1),
            }
        }
    }

    /// A line for each kind of call.
    pub fn print(&self, rt: &HostRuntime) -> io::Result<()> {
        for ((_, name), counts) in ACTS.iter().zip(&self.counts) {
            let (done, refused, failed) = (counts.done, counts.refused, counts.failed);
            println!(rt; "{name}: {done} done, {refused} refused, {failed} failed")?;
        }
        Ok(())
    }
}
