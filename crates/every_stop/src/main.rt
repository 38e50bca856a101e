//! Stops a migration at each change and lets each of its calls fail once, and goes on from all that this leaves.
//!
//! Each argument names two kinds of vaults and a rule for names: `FROM/TO`, or `FROM/TO/nfc`. A small tree is moved by the
//! commands in a folder in memory. `moves` plays the lines of a move, and `table` takes the commands through their turns.
#![tactic(auto)]

mod moves;
mod table;

use row_words::Said;
use std::alloc::{AllocError, Global};
use std::process::ExitCode;
use std::{env, io};
use table::play;

// What the migrations come to, and what is wrong first in each.
#[derive(Drop)]
struct Found {
    alloc: Global,
    told: Said,
    wrong: Said,
    // What the last one came to.
    last: String,
}

impl Found {
    // Plays the migration of two kinds, and tells what it comes to where that isn't what the last one came to.
    fn add(&mut self, pair: &str) -> Result<(), AllocError> {
        let played = play(self.alloc, pair)?;
        let wrong = played.wrong.as_str();
        self.told.add(pair);
        if played.told.as_str() == self.last.as_str() {
            self.told.add(": the same\n");
        } else {
            self.told.add(":\n");
            self.told.add(played.told.as_str());
        }
        self.told.add(wrong);
        self.wrong.add(wrong);
        self.last = played.told;
        Ok(())
    }
}

// Plays the migrations that the arguments name.
fn play_pairs(rt: &HostRuntime, found: &mut Found) -> io::Result<()> {
    for pair in env::args(rt)?.skip(1) {
        found.add(pair.as_str())?;
    }
    Ok(())
}

// Tells what the migrations came to, and says whether all are right. What is wrong is told again beside.
fn tell(rt: &HostRuntime, found: &mut Found) -> io::Result<bool> {
    let told = found.told.take()?;
    print!(rt; "{told}")?;
    let wrong = found.wrong.take()?;
    eprint!(rt; "{wrong}")?;
    Ok(wrong.is_empty())
}

fn play_all(rt: &HostRuntime) -> io::Result<bool> {
    let alloc = rt.alloc();
    let mut found = Found {
        alloc,
        told: Said::new(alloc),
        wrong: Said::new(alloc),
        last: String::new(alloc),
    };
    play_pairs(rt, &mut found)?;
    tell(rt, &mut found)
}

fn main(rt: HostRuntime) -> ExitCode {
    match play_all(&rt) {
        Ok(true) => ExitCode::from(0),
        Ok(false) => ExitCode::from(1),
        Err(_) => ExitCode::from(3),
    }
}
