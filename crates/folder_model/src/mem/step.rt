//! The steps that made a name table, and what stands in it.
ghost use Rattle.std.specs.Prelude.{◌≡◌, ◌≢◌, ◌<◌, [], ◌∷◌, ◌++◌, map, IfOk, OnOk, MatchOption, Contains, string_bytes};
ghost use Rattle.folder_spec.specs.declared.Spot.TheVariants.{Nothing};
ghost use Rattle.folder_spec.specs.Path.{Part, child};
ghost use Rattle.folder_spec.specs.State.{Table};
ghost use Rattle.folder_model.specs.Tables.{names_of};
ghost use Rattle.folder_model.specs.Steps.{step_table, replay, looked_in, target, KeepsEntries, GainsEntry};

use crate::mem::table::NameTable;
use crate::path::FPath;
use folder_spec::Spot;
use std::alloc::{AllocError, Global};

/// A change of a name table.
#[derive(Drop)]
pub enum Step {
    /// This stands at the path now.
    Put(FPath, Spot),
    /// All at the first path and below it went to the second.
    Move(FPath, FPath),
}

// What stands at a path after a step.
#[derive(Drop)]
enum Looked {
    Here(Spot),
    // What stood there before.
    Before(FPath),
}

fn look_through(step: &Step, path: FPath) -> Result<Looked, AllocError>
    ensures { IfOk result (λ looked. (t : Table) → step_table t step.now path ≡ looked_in t looked) }
{
    match step {
        Step::Put(at, spot) => {
            if at.is(&path) {
                return Ok(Looked::Here(*spot));
            }
            Ok(Looked::Before(path))
        }
        Step::Move(old, new) => {
            if let Some(before) = path.rebased(new, old)? {
                return Ok(Looked::Before(before));
            }
            if path.starts_with(old) {
                return Ok(Looked::Here(Spot::Nothing));
            }
            Ok(Looked::Before(path))
        }
    }
}

/// What stands at the path after the steps from that table.
pub fn look(base: &NameTable, steps: &[Step], at: &FPath) -> Result<Spot, AllocError>
    ensures { IfOk result (λ spot. spot ≡ replay (names_of base.now) steps.now at.now) }
{
    let mut path = at.copy()?;
    let mut left = steps.len();
    while left > 0 {
        left -= 1;
        match look_through(&steps[left], path)? {
            Looked::Here(spot) => return Ok(spot),
            Looked::Before(before) => path = before,
        }
    }
    Ok(base.spot(&path))
}

// The name of the entry at the path that the step may have made.
fn made_entry<'a>(step: &'a Step, at: &FPath) -> Option<&'a str>
    ensures { MatchOption result ((a : Part) → target step.now ≢ child at.now a) (λ name. target step.now ≡ child at.now name.now) }
{
    match step {
        Step::Put(path, _) => path.entry_of(at),
        Step::Move(_, new) => new.entry_of(at),
    }
}

// The path at which the other entries were before the step.
fn place_before(step: &Step, at: FPath) -> Result<FPath, AllocError>
    ensures { IfOk result (KeepsEntries step.now at) }
{
    match step {
        Step::Put(_, _) => Ok(at),
        Step::Move(old, new) => match at.rebased(new, old)? {
            Some(before) => Ok(before),
            None => Ok(at),
        },
    }
}

/// Adds a copy of the text.
pub fn push_text(alloc: Global, texts: &mut Vec<String>, text: &str) -> Result<(), AllocError>
    ensures { OnOk result (map (λ s. string_bytes s) texts.new.items ≡ map (λ s. string_bytes s) texts.old.items ++ text.now ∷ []) }
{
    texts.push(String::from_str(alloc, text)?)?;
    Ok(())
}

// Adds the name of the entry that the step may have made.
fn push_entry(
    alloc: Global,
    found: &mut Vec<String>,
    step: &Step,
    at: &FPath,
) -> Result<(), AllocError>
    ensures { OnOk result (GainsEntry step.now at.now (map (λ s. string_bytes s) found.old.items) (map (λ s. string_bytes s) found.new.items)) }
{
    match made_entry(step, at) {
        Some(name) => push_text(alloc, found, name),
        None => Ok(()),
    }
}

/// Names among which are those of all entries at the path after the steps.
pub fn names(
    alloc: Global,
    base: &NameTable,
    steps: &[Step],
    at: &FPath,
) -> Result<Vec<String>, AllocError>
    ensures { IfOk result (λ v. (a : Part) → replay (names_of base.now) steps.now (child at.now a) ≢ Nothing → Contains (map (λ s. string_bytes s) v.items) a) }
{
    let mut found = Vec::new(alloc);
    let mut path = at.copy()?;
    let mut left = steps.len();
    while left > 0 {
        left -= 1;
        let step = &steps[left];
        push_entry(alloc, &mut found, step, &path)?;
        path = place_before(step, path)?;
    }
    base.push_names(&mut found, &path)?;
    Ok(found)
}
