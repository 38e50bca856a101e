//! The lines of the demonstration.
ghost use Rattle.std.specs.Prelude.{◌≡◌, ◌≤◌, Err, IfErr, IfOk, IsTrue, string_bytes};
ghost use Rattle.demonstration.specs.Demo.{TakesPart, is_of_telling, made_text, moved_text, retired_text};
ghost use Rattle.port_model.specs.Counts.{CountRose};

use crate::leading::Leg;
use command_answers::Answer;
use demo_core::totals_of;
use port_model::Sink;
use std::alloc::{AllocError, Global};

/// Writes what the items come to.
pub(crate) fn tell_made<O: Sink>(
    alloc: Global,
    seed: u64,
    count: u32,
    out: &mut O,
) -> Result<(), Answer>
    requires { count ≤ 2000 }
    ensures prints { TakesPart result (O.taken out.old) (O.taken out.new) (made_text seed count) }
    ensures own { IfErr result (λ answer. IsTrue (is_of_telling answer)) }
    ensures output_fault { result ≡ Err Answer.OutputFault → CountRose (O.faults out.old) (O.faults out.new) }
    ensures written { O.faults out.old ≤ O.faults out.new }
{
    let text = made_text(alloc, seed, count)?;
    tell(text.as_str(), out)
}

/// Writes the line of a migration.
pub(crate) fn tell_moved<O: Sink>(
    alloc: Global,
    leg: Leg,
    status: u8,
    out: &mut O,
) -> Result<(), Answer>
    ensures prints { TakesPart result (O.taken out.old) (O.taken out.new) (moved_text leg status) }
    ensures own { IfErr result (λ answer. IsTrue (is_of_telling answer)) }
    ensures output_fault { result ≡ Err Answer.OutputFault → CountRose (O.faults out.old) (O.faults out.new) }
    ensures written { O.faults out.old ≤ O.faults out.new }
{
    let text = moved_text(alloc, leg, status)?;
    tell(text.as_str(), out)
}

/// Writes the line of both retired vaults.
pub(crate) fn tell_retired<O: Sink>(
    alloc: Global,
    first: u64,
    second: u64,
    out: &mut O,
) -> Result<(), Answer>
    ensures prints { TakesPart result (O.taken out.old) (O.taken out.new) (retired_text first second) }
    ensures own { IfErr result (λ answer. IsTrue (is_of_telling answer)) }
    ensures output_fault { result ≡ Err Answer.OutputFault → CountRose (O.faults out.old) (O.faults out.new) }
    ensures written { O.faults out.old ≤ O.faults out.new }
{
    let text = retired_text(alloc, first, second)?;
    tell(text.as_str(), out)
}

// Writes what is known now.
fn tell<O: Sink>(text: &str, out: &mut O) -> Result<(), Answer>
    ensures prints { TakesPart result (O.taken out.old) (O.taken out.new) text.now }
    ensures own { IfErr result (λ answer. IsTrue (is_of_telling answer)) }
    ensures output_fault { result ≡ Err Answer.OutputFault → CountRose (O.faults out.old) (O.faults out.new) }
    ensures written { O.faults out.old ≤ O.faults out.new }
{
    match out.put(text.as_bytes()) {
        Ok(()) => Ok(()),
        Err(_) => Err(Answer::OutputFault),
    }
}

// What the items come to.
fn made_text(alloc: Global, seed: u64, count: u32) -> Result<String, AllocError>
    requires { count ≤ 2000 }
    ensures { IfOk result (λ text. string_bytes text ≡ made_text seed count) }
{
    let totals = totals_of(seed, count);
    let directories = totals.directories;
    let files = totals.files;
    let bytes = totals.bytes;
    let mut text = format!(in alloc; "demo seed {seed}")?;
    text.push_str(format!(in alloc; " count {count}\n")?.as_str())?;
    text.push_str(format!(in alloc; "directories {directories}")?.as_str())?;
    text.push_str(format!(in alloc; " files {files}")?.as_str())?;
    text.push_str(format!(in alloc; " bytes {bytes}\n")?.as_str())?;
    Ok(text)
}

// The line of a migration.
fn moved_text(alloc: Global, leg: Leg, status: u8) -> Result<String, AllocError>
    ensures { IfOk result (λ text. string_bytes text ≡ moved_text leg status) }
{
    match leg {
        Leg::There => format!(in alloc; "to cryptomator {status}\n"),
        Leg::Back => format!(in alloc; "to gocryptfs {status}\n"),
    }
}

// The line of both retired vaults.
fn retired_text(alloc: Global, first: u64, second: u64) -> Result<String, AllocError>
    ensures { IfOk result (λ text. string_bytes text ≡ retired_text first second) }
{
    let mut text = format!(in alloc; "items {first}")?;
    text.push_str(format!(in alloc; " {second}\n")?.as_str())?;
    Ok(text)
}
