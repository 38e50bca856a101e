//! A name table as an ordered map.
ghost use Rattle.std.specs.Prelude.{◌≡◌, ◌≢◌, ◌≤◌, ◌∷◌, None, map, length, drop, IfOk, OnOk, OnErr, string_bytes};
ghost use Rattle.folder_spec.specs.Path.{below};
ghost use Rattle.folder_spec.specs.State.{Table, IsAmong, put, moved};
ghost use Rattle.folder_model.specs.Steps.{base_table, step_table, replay, tables_after};
ghost use Rattle.folder_model.specs.Tables.{table_of, names_of, placed, HasParents, AddsName, AddsNames, MovesPath};

use crate::mem::step::{Step, push_text};
use crate::path::FPath;
use folder_spec::Spot;
use std::alloc::{AllocError, Global};
use std::collections::BTreeMap;

/// What stands at each path: nothing where there is no entry.
#[derive(Drop)]
pub struct NameTable {
    alloc: Global,
    spots: BTreeMap<FPath, Spot>,
}

fn spot_in(spots: &BTreeMap<FPath, Spot>, at: &FPath) -> Spot
    ensures { result ≡ table_of spots.now at.now }
{
    match spots.get(at) {
        Some(spot) => *spot,
        None => Spot::Nothing,
    }
}

// This stands at the path now.
fn set_spot(spots: &mut BTreeMap<FPath, Spot>, at: FPath, spot: Spot) -> Result<(), AllocError>
    ensures ok { OnOk result (table_of spots.new ≡ put (table_of spots.old) at spot) }
    ensures err { OnErr result (table_of spots.new ≡ table_of spots.old) }
{
    spots.insert(at, spot)?;
    Ok(())
}

// Adds to the names that of the path, if it is an entry of the directory.
fn add_name(
    alloc: Global,
    found: &mut Vec<String>,
    path: &FPath,
    at: &FPath,
) -> Result<(), AllocError>
    ensures { OnOk result (AddsName path.now at.now (map (λ s. string_bytes s) found.old.items) (map (λ s. string_bytes s) found.new.items)) }
{
    match path.entry_of(at) {
        Some(name) => push_text(alloc, found, name),
        None => Ok(()),
    }
}

// Adds to the names those of the entries of the directory.
fn add_names(
    alloc: Global,
    spots: &BTreeMap<FPath, Spot>,
    found: &mut Vec<String>,
    at: &FPath,
) -> Result<(), AllocError>
    ensures { OnOk result (AddsNames (table_of spots.now) at.now (map (λ s. string_bytes s) found.old.items) (map (λ s. string_bytes s) found.new.items)) }
{
    for path in spots.keys() {
        add_name(alloc, found, path, at)?;
    }
    Ok(())
}

// Where what stood at the path stands after all at `old` and below it went to `new`.
fn place_after(path: &FPath, old: &FPath, new: &FPath) -> Result<FPath, AllocError>
    ensures { IfOk result (λ p. p ≡ placed old.now new.now path.now) }
{
    match path.rebased(old, new)? {
        Some(there) => Ok(there),
        None => path.copy(),
    }
}

// Puts what stands at the path where it stands after the move.
fn move_path(
    after: &mut BTreeMap<FPath, Spot>,
    spots: &BTreeMap<FPath, Spot>,
    path: &FPath,
    old: &FPath,
    new: &FPath,
) -> Result<(), AllocError>
    ensures { OnOk result (MovesPath (table_of spots.now) (table_of after.old) (table_of after.new) old.now new.now path.now) }
{
    match spot_in(spots, path) {
        Spot::Nothing => Ok(()),
        spot => {
            let place = place_after(path, old, new)?;
            set_spot(after, place, spot)
        }
    }
}

// The table after a move to a place where nothing stands.
fn moved_spots(
    alloc: Global,
    spots: &BTreeMap<FPath, Spot>,
    old: &FPath,
    new: &FPath,
) -> Result<BTreeMap<FPath, Spot>, AllocError>
    requires parents { HasParents (table_of spots.now) }
    requires apart { below old.now new.now ≡ None }
    requires place { table_of spots.now new.now ≡ Spot.Nothing }
    ensures { IfOk result (λ after. table_of after ≡ moved (table_of spots.now) old.now new.now) }
{
    let mut after = BTreeMap::new(alloc);
    for path in spots.keys() {
        move_path(&mut after, spots, path, old, new)?;
    }
    Ok(after)
}

impl NameTable {
    /// Nothing but the base.
    pub fn base(alloc: Global) -> Result<Self, AllocError>
        ensures { IfOk result (λ t. names_of t ≡ base_table) }
    {
        let mut spots = BTreeMap::new(alloc);
        set_spot(&mut spots, FPath::base(alloc), Spot::Directory)?;
        Ok(NameTable { alloc, spots })
    }

    /// What stands at the path.
    pub fn spot(&self, at: &FPath) -> Spot
        ensures { result ≡ names_of self.now at.now }
    {
        spot_in(&self.spots, at)
    }

    /// Adds to the names those of the entries of the directory at the path.
    pub fn push_names(&self, found: &mut Vec<String>, at: &FPath) -> Result<(), AllocError>
        ensures { OnOk result (AddsNames (names_of self.now) at.now (map (λ s. string_bytes s) found.old.items) (map (λ s. string_bytes s) found.new.items)) }
    {
        add_names(self.alloc, &self.spots, found, at)
    }

    // Nothing stands at the path now.
    fn clear(&mut self, at: &FPath)
        ensures { names_of self.new ≡ put (names_of self.old) at.now Spot.Nothing }
    {
        let _ = self.spots.remove(at);
    }

    // This stands at the path now.
    fn put(&mut self, at: &FPath, spot: Spot) -> Result<(), AllocError>
        ensures ok { OnOk result (names_of self.new ≡ put (names_of self.old) at.now spot) }
        ensures err { OnErr result (names_of self.new ≡ names_of self.old) }
    {
        set_spot(&mut self.spots, at.copy()?, spot)
    }

    fn place(&mut self, at: &FPath, spot: Spot) -> Result<(), AllocError>
        ensures ok { OnOk result (names_of self.new ≡ put (names_of self.old) at.now spot) }
        ensures err { OnErr result (names_of self.new ≡ names_of self.old) }
    {
        match spot {
            Spot::Nothing => {
                self.clear(at);
                Ok(())
            }
            _ => self.put(at, spot),
        }
    }

    // Moves what isn't a directory to where none stands.
    fn move_file(&mut self, old: &FPath, new: &FPath) -> Result<(), AllocError>
        requires parents { HasParents (names_of self.old) }
        requires file { names_of self.old old.now ≢ Spot.Directory }
        requires place { names_of self.old new.now ≢ Spot.Directory }
        requires apart { below old.now new.now ≡ None }
        ensures ok { OnOk result (names_of self.new ≡ moved (names_of self.old) old.now new.now) }
        ensures err { OnErr result (names_of self.new ≡ names_of self.old) }
    {
        let spot = self.spot(old);
        self.put(new, spot)?;
        self.clear(old);
        Ok(())
    }

    // Moves a directory to where nothing stands.
    fn move_dir(&mut self, old: &FPath, new: &FPath) -> Result<(), AllocError>
        requires parents { HasParents (names_of self.old) }
        requires apart { below old.now new.now ≡ None }
        requires place { names_of self.old new.now ≡ Spot.Nothing }
        ensures ok { OnOk result (names_of self.new ≡ moved (names_of self.old) old.now new.now) }
        ensures err { OnErr result (names_of self.new ≡ names_of self.old) }
    {
        let spots = moved_spots(self.alloc, &self.spots, old, new)?;
        self.spots = spots;
        Ok(())
    }

    // A move that no call of a folder makes is not done.
    fn move_all(&mut self, old: &FPath, new: &FPath) -> Result<(), AllocError>
        requires { HasParents (names_of self.old) }
        ensures ok { OnOk result (names_of self.new ≡ moved (names_of self.old) old.now new.now) }
        ensures err { OnErr result (names_of self.new ≡ names_of self.old) }
    {
        if new.starts_with(old) {
            return Err(AllocError);
        }
        match self.spot(new) {
            Spot::Directory => return Err(AllocError),
            _ => {}
        }
        match self.spot(old) {
            Spot::Directory => {}
            _ => return self.move_file(old, new),
        }
        match self.spot(new) {
            Spot::Nothing => self.move_dir(old, new),
            _ => Err(AllocError),
        }
    }

    // Does the step, or nothing of it.
    fn absorb(&mut self, step: &Step) -> Result<(), AllocError>
        requires { HasParents (names_of self.old) }
        ensures ok { OnOk result (names_of self.new ≡ step_table (names_of self.old) step.now) }
        ensures err { OnErr result (names_of self.new ≡ names_of self.old) }
    {
        match step {
            Step::Put(at, spot) => self.place(at, *spot),
            Step::Move(old, new) => self.move_all(old, new),
        }
    }
}

// Does the steps in order, and says how many: as many as there is memory for.
fn absorb_front(table: &mut NameTable, steps: &[Step]) -> usize
    requires { (t : Table) → IsAmong t (names_of table.old ∷ tables_after (names_of table.old) steps.now) → HasParents t }
    ensures within { result ≤ length steps.now }
    ensures last { replay (names_of table.new) (drop result steps.now) ≡ replay (names_of table.old) steps.now }
    ensures tables { (t : Table) → IsAmong t (names_of table.new ∷ tables_after (names_of table.new) (drop result steps.now)) → IsAmong t (names_of table.old ∷ tables_after (names_of table.old) steps.now) }
{
    let mut done = 0;
    while done < steps.len() {
        match table.absorb(&steps[done]) {
            Ok(()) => done += 1,
            Err(_) => return done,
        }
    }
    done
}

/// Does the steps, as many as there is memory for, and drops these.
pub fn absorb_all(table: &mut NameTable, steps: &mut Vec<Step>)
    requires { (t : Table) → IsAmong t (names_of table.old ∷ tables_after (names_of table.old) steps.old.items) → HasParents t }
    ensures last { replay (names_of table.new) steps.new.items ≡ replay (names_of table.old) steps.old.items }
    ensures tables { (t : Table) → IsAmong t (names_of table.new ∷ tables_after (names_of table.new) steps.new.items) → IsAmong t (names_of table.old ∷ tables_after (names_of table.old) steps.old.items) }
{
    let done = absorb_front(table, steps.as_slice());
    steps.drain(..done);
}
