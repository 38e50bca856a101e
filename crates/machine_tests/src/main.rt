//! Compares the machine's folder with the one in memory: `machine_tests ROUNDS CALLS` claims directories and plays so many rounds of calls
//! that are drawn by a seed, on both. What it keeps of claimed directories is right where it answers as the model does after each of them.
//! Beside it tests of the layers below the commands that rows can't say: a folder that tells nothing and in which nearly all calls fail,
//! and the folder and the random bytes of the machine. All others are rows of command_rows.
#![tactic(auto)]

mod acting;
mod chance;
#[cfg(test)]
mod doing;
#[cfg(test)]
mod machine;
mod rounds;
#[cfg(test)]
mod silent;
mod tally;

use crate::rounds::play_round;
use crate::tally::Tally;
use std::process::ExitCode;
use std::{env, io};

fn main(rt: HostRuntime) -> ExitCode {
    match play(&rt) {
        Ok(true) => ExitCode::from(0),
        Ok(false) => ExitCode::from(1),
        Err(_) => ExitCode::from(3),
    }
}

// Plays the rounds: whether all answers are the model's.
fn play(rt: &HostRuntime) -> io::Result<bool> {
    let (rounds, calls) = (word(rt, 1)?, word(rt, 2)?);
    let mut tally = Tally::new();
    for seed in 0..rounds {
        if !play_round(rt, u64::from(seed), calls, &mut tally)? {
            return Ok(false);
        }
    }
    tally.print(rt)?;
    Ok(true)
}

// The number that a word is, or 0.
fn word(rt: &HostRuntime, number: usize) -> io::Result<u32> {
    let mut words = env::args(rt)?;
    let Some(word) = words.nth(number) else {
        return Ok(0);
    };
    Ok(word.as_str().parse::<u32>().unwrap_or(0))
}
