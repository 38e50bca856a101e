//! Rounds of calls that are made of a claimed folder of the machine and of one in memory, and compared.

use crate::acting::{Act, Question, Step, acted, answered};
use crate::chance::{Chance, LINK, NAMES, ROOTS};
use crate::tally::Tally;
use folder_model::{FPath, Folder, FolderFault, Kind, MemFolder};
use host_places::{Hold, Wanted};
use host_ports::HostFolder;
use std::alloc::{AllocError, Global};
use std::fs::Files;
use std::{fs, io};

// How many paths of the claimed folder are asked for after each call.
const ASKED: u32 = 4;

const FILE: &str = "file";

// How deep directories lie at most.
const DEEP: usize = 4;

// The folders: the machine's with claims, that in memory, and where the machine's stands.
#[derive(Drop)]
struct Folders {
    base: String,
    claimed: HostFolder,
    model: MemFolder,
}

/// Plays a round: whether each answer is the model's.
pub fn play_round(rt: &HostRuntime, seed: u64, calls: u32, tally: &mut Tally) -> io::Result<bool> {
    let mut chance = Chance::new(seed);
    let mut folders = begun(rt, seed)?;
    if !folders.ask_links(rt)? || !folders.ask_replaced(rt)? {
        println!(rt; "round {seed}, before the first call")?;
        return Ok(false);
    }
    for number in 0..calls {
        let step = Step::draw(rt.alloc(), &mut chance, &mut folders.model)?;
        if !folders.take(rt, &step, tally)?
            || !folders.ask_moved(rt, &step)?
            || !folders.compare(rt, &mut chance)?
        {
            println!(rt; "round {seed}, call {number}")?;
            return Ok(false);
        }
    }
    Ok(true)
}

// The folders of a round. In every second one the claimed directories come after they were claimed; in the others a link stands in each,
// which leads to a file.
fn begun(rt: &HostRuntime, seed: u64) -> io::Result<Folders> {
    let alloc = rt.alloc();
    let base = format!(in alloc; "round {seed}")?;
    fs::create_dir(rt, base.as_str())?;
    let mut folders = Folders {
        claimed: HostFolder::new(rt.clone()?, alloc, base.as_str())?,
        model: MemFolder::new(alloc)?,
        base,
    };
    make_roots(alloc, &mut folders.model)?;
    if seed % 2 == 0 {
        let mut fresh = folders.fresh(rt)?;
        make_roots(alloc, &mut fresh)?;
        folders.place_links(rt)?;
        claim_roots(alloc, &mut folders.claimed)?;
    } else {
        claim_roots(alloc, &mut folders.claimed)?;
        make_roots(alloc, &mut folders.claimed)?;
    }
    Ok(folders)
}

// Makes the directories, and a file beside them.
fn make_roots<F: Folder>(alloc: Global, folder: &mut F) -> Result<(), AllocError> {
    for name in ROOTS {
        let _ = folder.make_dir(&FPath::base(alloc).child(name)?);
    }
    let file = FPath::base(alloc).child(FILE)?;
    let _ = folder.create(&file);
    let _ = folder.append(&file, b"not followed");
    let _ = folder.sync(&file);
    let _ = folder.settle();
    Ok(())
}

// Makes a directory, removes it, and moves another one with a file to its place.
fn replace<F: Folder>(folder: &mut F, root: &FPath, dir: &FPath) -> Result<(), AllocError> {
    let other = root.child("b")?;
    let file = other.child("c")?;
    let _ = folder.make_dir(&other);
    let _ = folder.create(&file);
    let _ = folder.make_dir(dir);
    let _ = folder.kind(&file);
    let _ = folder.remove_dir(dir);
    let _ = folder.rename(&other, dir);
    Ok(())
}

fn remove<F: Folder>(folder: &mut F, dir: &FPath) -> Result<(), AllocError> {
    let _ = folder.remove_file(&dir.child("c")?);
    let _ = folder.remove_dir(dir);
    Ok(())
}

fn claim_roots(alloc: Global, folder: &mut HostFolder) -> Result<(), AllocError> {
    let mut wanted = Vec::new(alloc);
    for name in ROOTS {
        wanted.push(Wanted {
            at: FPath::base(alloc).child(name)?,
            hold: Hold::Alone,
        })?;
    }
    let _ = folder.claim(wanted.as_mut_slice());
    Ok(())
}

impl Folders {
    // A folder of the machine without claims, which has seen nothing yet.
    fn fresh(&self, rt: &HostRuntime) -> Result<HostFolder, AllocError> {
        HostFolder::new(rt.clone()?, rt.alloc(), self.base.as_str())
    }

    // Places a link in each of the directories, which leads to the file beside them.
    fn place_links(&mut self, rt: &HostRuntime) -> io::Result<()> {
        let alloc = rt.alloc();
        for name in ROOTS {
            let base = self.base.as_str();
            let text = format!(in alloc; "{base}/{name}/{LINK}")?;
            rt.symlink("../file", text.as_str())?;
            let at = FPath::base(alloc).child(name)?.child(LINK)?;
            if self.model.may_place(&at)? {
                self.model.place_other(&at)?;
            }
        }
        Ok(())
    }

    // Lists each of the directories while nothing but a link is in it, and reads the link: whether the answers are the model's.
    fn ask_links(&mut self, rt: &HostRuntime) -> io::Result<bool> {
        let alloc = rt.alloc();
        for name in ROOTS {
            let dir = FPath::base(alloc).child(name)?;
            let link = dir.child(LINK)?;
            if !same(rt, &mut self.claimed, &mut self.model, Question::List, &dir)? {
                return Ok(false);
            }
            if !same(
                rt,
                &mut self.claimed,
                &mut self.model,
                Question::Read,
                &link,
            )? {
                return Ok(false);
            }
        }
        Ok(true)
    }

    // Brings a directory to the place of another one in each of the directories, and asks what stands in it: whether the answers are the
    // model's. All of it is removed then.
    fn ask_replaced(&mut self, rt: &HostRuntime) -> io::Result<bool> {
        for name in ROOTS {
            let root = FPath::base(rt.alloc()).child(name)?;
            let dir = root.child("a")?;
            replace(&mut self.claimed, &root, &dir)?;
            replace(&mut self.model, &root, &dir)?;
            if !self.ask_names(rt, &dir)? {
                return Ok(false);
            }
            remove(&mut self.claimed, &dir)?;
            remove(&mut self.model, &dir)?;
        }
        Ok(true)
    }

    // Makes a call of both folders: whether they answer the same.
    fn take(&mut self, rt: &HostRuntime, step: &Step, tally: &mut Tally) -> io::Result<bool> {
        if step.fails {
            if !self.may_fail(step)? {
                return Ok(true);
            }
            self.model.fail_at(1)?;
        }
        let found = acted(&mut self.claimed, step);
        let wanted = acted(&mut self.model, step);
        tally.count(step.number, found);
        if found == wanted {
            return Ok(true);
        }
        let (at, to) = (step.at.text()?, step.to.text()?);
        println!(rt;
            "at {at} to {to}: {} in place of {}",
            text_of(found),
            text_of(wanted)
        )?;
        Ok(false)
    }

    // Behind the move of a directory, asks what stands below its old place.
    fn ask_moved(&mut self, rt: &HostRuntime, step: &Step) -> io::Result<bool> {
        match step.act {
            Act::Rename if self.is_dir(&step.to) => self.ask_below(rt, &step.at),
            _ => Ok(true),
        }
    }

    // Asks of each name in each directory that could stand in a path: whether the answers are the model's.
    fn ask_below(&mut self, rt: &HostRuntime, at: &FPath) -> io::Result<bool> {
        for above in NAMES {
            if !self.ask_names(rt, &at.child(above)?)? {
                return Ok(false);
            }
        }
        Ok(true)
    }

    // Asks of each name in a directory: whether the answers are the model's.
    fn ask_names(&mut self, rt: &HostRuntime, dir: &FPath) -> io::Result<bool> {
        for name in NAMES {
            let at = dir.child(name)?;
            if !same(rt, &mut self.claimed, &mut self.model, Question::Kind, &at)? {
                return Ok(false);
            }
        }
        Ok(true)
    }

    // Whether the model would do a call whose name is too long.
    fn may_fail(&mut self, step: &Step) -> Result<bool, AllocError> {
        match step.act {
            Act::Rename => {
                let stands = self.model.kind(&step.at) != Ok(Kind::Missing);
                Ok(stands && !step.to.starts_with(&step.at) && self.is_dir(&step.to.parent()?))
            }
            _ => Ok(self.is_dir(&step.at.parent()?)),
        }
    }

    fn is_dir(&mut self, at: &FPath) -> bool {
        self.model.kind(at) == Ok(Kind::Dir)
    }

    // Asks a few paths of the claimed folder, and all of a fresh one: whether the answers are the model's.
    fn compare(&mut self, rt: &HostRuntime, chance: &mut Chance) -> io::Result<bool> {
        let alloc = rt.alloc();
        for _ in 0..ASKED {
            let at = chance.path(alloc)?;
            let question = drawn(chance);
            if !same(rt, &mut self.claimed, &mut self.model, question, &at)? {
                return Ok(false);
            }
        }
        let mut fresh = self.fresh(rt)?;
        all_same(rt, &mut fresh, &mut self.model)
    }
}

fn drawn(chance: &mut Chance) -> Question {
    match chance.below(4) {
        0 | 1 => Question::Kind,
        2 => Question::List,
        _ => Question::Read,
    }
}

fn text_of(answer: Result<(), FolderFault>) -> &'static str {
    match answer {
        Ok(()) => "done",
        Err(FolderFault::Failed) => "failed",
        Err(FolderFault::Refused) => "refused",
        Err(FolderFault::NoMemory) => "no memory",
    }
}

// Whether both folders answer the same to a question.
fn same<F: Folder>(
    rt: &HostRuntime,
    folder: &mut F,
    model: &mut MemFolder,
    question: Question,
    at: &FPath,
) -> io::Result<bool> {
    let found = answered(rt.alloc(), folder, question, at)?;
    let wanted = answered(rt.alloc(), model, question, at)?;
    if found.as_str() == wanted.as_str() {
        return Ok(true);
    }
    let at = at.text()?;
    println!(rt; "{at}: {found} in place of {wanted}")?;
    Ok(false)
}

// Whether the same stands at each path of both folders.
fn all_same(rt: &HostRuntime, folder: &mut HostFolder, model: &mut MemFolder) -> io::Result<bool> {
    let mut level = Vec::new(rt.alloc());
    level.push(FPath::base(rt.alloc()))?;
    for _ in 0..=DEEP {
        let mut next = Vec::new(rt.alloc());
        for dir in level.as_slice() {
            if !same_below(rt, folder, model, dir, &mut next)? {
                return Ok(false);
            }
        }
        level = next;
    }
    Ok(true)
}

// Whether a directory has the same entries in both, and each file the same bytes. Its directories are added to those that are next.
fn same_below(
    rt: &HostRuntime,
    folder: &mut HostFolder,
    model: &mut MemFolder,
    dir: &FPath,
    next: &mut Vec<FPath>,
) -> io::Result<bool> {
    if !same(rt, folder, model, Question::List, dir)? {
        return Ok(false);
    }
    let Ok(entries) = model.list(dir) else {
        return Ok(true);
    };
    for entry in entries.as_slice() {
        let at = dir.child(entry.name.as_str())?;
        if entry.kind == Kind::Dir {
            next.push(at)?;
        } else if !same(rt, folder, model, Question::Read, &at)? {
            return Ok(false);
        }
    }
    Ok(true)
}
