//! Calls of a folder, and what they answer as texts.

use crate::chance::Chance;
use folder_model::{Entry, FPath, Folder, FolderFault, Kind};
use std::alloc::{AllocError, Global};

const BYTES: [u8; 9] = *b"123456789";

// How many bytes are read at most.
const MOST: usize = 4096;

// How often a path is drawn that fits.
const DRAWS: u32 = 6;

// How long a name is that the machine takes for none.
const TOO_LONG: usize = 300;

/// What is asked of a path.
#[derive(Clone, Copy)]
pub enum Question {
    Kind,
    List,
    Read,
}

/// A call that changes something, or makes changes last.
#[derive(Clone, Copy)]
pub enum Act {
    MakeDir,
    Create,
    Append,
    Sync,
    Settle,
    Rename,
    RemoveFile,
    RemoveDir,
}

/// The calls, each with its name.
pub const ACTS: [(Act, &str); 8] = [
    (Act::MakeDir, "make_dir"),
    (Act::Create, "create"),
    (Act::Append, "append"),
    (Act::Sync, "sync"),
    (Act::Settle, "settle"),
    (Act::Rename, "rename"),
    (Act::RemoveFile, "remove_file"),
    (Act::RemoveDir, "remove_dir"),
];

// How often each is drawn, of a hundred times.
const WEIGHTS: [u64; 8] = [16, 20, 16, 4, 4, 24, 10, 6];

/// A call, the number of its kind, and its paths.
#[derive(Drop)]
pub struct Step {
    pub act: Act,
    pub number: usize,
    pub at: FPath,
    pub to: FPath,
    /// How many bytes are appended.
    pub count: usize,
    /// Whether the last of its paths has a name that the machine finds too long.
    pub fails: bool,
}

impl Step {
    /// Draws a call, mostly one that the model would do.
    pub fn draw<F: Folder>(
        alloc: Global,
        chance: &mut Chance,
        model: &mut F,
    ) -> Result<Step, AllocError> {
        let number = weighed(chance.below(100));
        let (act, _) = ACTS.get(number).copied().unwrap_or((Act::Settle, ""));
        let mut step = Step {
            act,
            number,
            at: path_for(alloc, chance, model, makes(act))?,
            to: path_for(alloc, chance, model, true)?,
            count: chance.below(9) as usize,
            fails: chance.below(12) == 0,
        };
        if step.fails {
            step.lengthen(alloc)?;
        }
        Ok(step)
    }

    // Gives what is made a name that is too long, or lets the call be.
    fn lengthen(&mut self, alloc: Global) -> Result<(), AllocError> {
        match self.act {
            Act::MakeDir | Act::Create => self.at = with_long_name(alloc, &self.at)?,
            Act::Rename => self.to = with_long_name(alloc, &self.to)?,
            _ => self.fails = false,
        }
        Ok(())
    }
}

// Whether a call makes something at its first path.
fn makes(act: Act) -> bool {
    matches!(act, Act::MakeDir | Act::Create)
}

// A path at which something could be made, or else one at which something stands; any path where a few draws find none.
fn path_for<F: Folder>(
    alloc: Global,
    chance: &mut Chance,
    model: &mut F,
    makes: bool,
) -> Result<FPath, AllocError> {
    for _ in 0..DRAWS {
        let at = chance.path(alloc)?;
        let stands = model.kind(&at) != Ok(Kind::Missing);
        if stands != makes && model.kind(&at.parent()?) == Ok(Kind::Dir) {
            return Ok(at);
        }
    }
    chance.path(alloc)
}

// The number of the kind of call that is drawn.
fn weighed(drawn: u64) -> usize {
    let mut rest = drawn;
    for (number, weight) in WEIGHTS.iter().enumerate() {
        if rest < *weight {
            return number;
        }
        rest = rest.saturating_sub(*weight);
    }
    0
}

fn with_long_name(alloc: Global, at: &FPath) -> Result<FPath, AllocError> {
    let mut name = String::new(alloc);
    for _ in 0..TOO_LONG {
        name.push_str("n")?;
    }
    at.parent()?.child(name.as_str())
}

/// Makes the call, and tells its fault.
pub fn acted<F: Folder>(folder: &mut F, step: &Step) -> Result<(), FolderFault> {
    let at = &step.at;
    match step.act {
        Act::MakeDir => folder.make_dir(at),
        Act::Create => folder.create(at),
        Act::Append => folder.append(at, BYTES.get(..step.count).unwrap_or(&BYTES)),
        Act::Sync => folder.sync(at),
        Act::Settle => folder.settle(),
        Act::Rename => folder.rename(at, &step.to),
        Act::RemoveFile => folder.remove_file(at),
        Act::RemoveDir => folder.remove_dir(at),
    }
}

/// What the folder answers to a question at a path.
pub fn answered<F: Folder>(
    alloc: Global,
    folder: &mut F,
    question: Question,
    at: &FPath,
) -> Result<String, AllocError> {
    match question {
        Question::Kind => kind_told(alloc, folder, at),
        Question::List => list_told(alloc, folder, at),
        Question::Read => read_told(alloc, folder, at),
    }
}

fn kind_told<F: Folder>(alloc: Global, folder: &mut F, at: &FPath) -> Result<String, AllocError> {
    match folder.kind(at) {
        Ok(kind) => String::from_str(alloc, name_of(kind)),
        Err(fault) => fault_told(alloc, fault),
    }
}

fn list_told<F: Folder>(alloc: Global, folder: &mut F, at: &FPath) -> Result<String, AllocError> {
    match folder.list(at) {
        Ok(entries) => entries_told(alloc, entries.as_slice()),
        Err(fault) => fault_told(alloc, fault),
    }
}

fn entries_told(alloc: Global, entries: &[Entry]) -> Result<String, AllocError> {
    let mut text = String::from_str(alloc, "entries")?;
    for entry in entries {
        text.push_str(" ")?;
        text.push_str(entry.name.as_str())?;
        text.push_str(":")?;
        text.push_str(name_of(entry.kind))?;
    }
    Ok(text)
}

// How many bytes a file has.
fn read_told<F: Folder>(alloc: Global, folder: &mut F, at: &FPath) -> Result<String, AllocError> {
    let mut out = [0; MOST];
    match folder.read(at, 0, &mut out) {
        Ok(count) => format!(in alloc; "{count} bytes"),
        Err(fault) => fault_told(alloc, fault),
    }
}

fn fault_told(alloc: Global, fault: FolderFault) -> Result<String, AllocError> {
    String::from_str(
        alloc,
        match fault {
            FolderFault::Failed => "failed",
            FolderFault::Refused => "refused",
            FolderFault::NoMemory => "no memory",
        },
    )
}

fn name_of(kind: Kind) -> &'static str {
    match kind {
        Kind::Missing => "nothing",
        Kind::Dir => "directory",
        Kind::File => "file",
        Kind::Other => "other",
    }
}
