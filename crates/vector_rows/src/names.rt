//! Calls of vault_names.

ghost use Rattle.std.specs.Prelude.{◌≤◌};

use crate::answer::Answer;
use crate::arguments::Arguments;
use crate::configurations::keys;
use crate::paths::name;
use aes_lanes::Block;
use plain_tree::Name;
use std::alloc::{AllocError, Global};
use vault_names::{
    NameFault, Stored, base32_of, cm_folder, cm_long, cm_read, cm_store, go_long, go_read,
    go_store, new_dir_id,
};
use vault_values::{CmKeys, GoKeys};

/// Makes a call of this module, and says whether there is one of this name.
pub fn answer(name: &str, args: &mut Arguments, answer: &mut Answer) -> bool {
    match name {
        "size" => answer.shows(&args.bytes(0).len()),
        "go-name" => short(&go_dir(args), args, answer),
        "go-long-name" => long(&go_dir(args), args, answer),
        "go-read" => read(&go_dir(args), args, answer),
        "cm-name" => short(&cm_dir(args), args, answer),
        "cm-long-name" => long(&cm_dir(args), args, answer),
        "cm-read" => read(&cm_dir(args), args, answer),
        "cm-folder" => answer.made(cm_folder(answer.alloc(), &keys(args, 0), args.bytes(2))),
        "cm-dir-id" => answer.made(new_dir_id(answer.alloc(), &args.array(0))),
        "base32" => answer.bytes(&base32_of(&args.array(0))),
        _ => return false,
    }
    true
}

const THRESHOLD: u32 = 220;

// A directory of a vault, with the vault's keys.
#[derive(Clone, Copy)]
enum Dir<'a> {
    // What its `gocryptfs.diriv` holds.
    Go(GoKeys, Block),
    // Its id.
    Cm(CmKeys, &'a [u8]),
}

// A directory of gocryptfs; the key of contents is zeros.
fn go_dir(args: &Arguments) -> Dir<'_> {
    let keys = GoKeys {
        content: [0; 32],
        names: args.array(0),
    };
    Dir::Go(keys, args.array(1))
}

fn cm_dir(args: &Arguments) -> Dir<'_> {
    Dir::Cm(keys(args, 0), args.bytes(2))
}

impl Dir<'_> {
    // The place of the first argument behind those of the directory.
    fn behind(&self) -> usize
        ensures { result ≤ 3 }
    {
        match self {
            Dir::Go(..) => 2,
            Dir::Cm(..) => 3,
        }
    }

    // How a name is stored.
    fn stored(&self, alloc: Global, name: &Name) -> Result<Stored, AllocError> {
        match self {
            Dir::Go(keys, iv) => go_store(alloc, keys, iv, name),
            Dir::Cm(keys, id) => cm_store(alloc, keys, THRESHOLD, id, name),
        }
    }

    // The name that a text stores.
    fn name_of(&self, alloc: Global, text: &str) -> Result<Name, NameFault> {
        match self {
            Dir::Go(keys, iv) => go_read(alloc, keys, iv, text),
            Dir::Cm(keys, id) => cm_read(alloc, keys, id, text),
        }
    }

    // The entry's name behind which a text stands.
    fn entry_of(&self, alloc: Global, text: &str) -> Result<String, AllocError> {
        match self {
            Dir::Go(..) => go_long(alloc, text),
            Dir::Cm(..) => cm_long(alloc, text),
        }
    }

    fn is_stored_as(&self, alloc: Global, text: &str, name: &Name) -> bool {
        match self.name_of(alloc, text) {
            Ok(read) => read == *name,
            Err(_) => false,
        }
    }
}

// The name whose text an argument writes.
fn read(dir: &Dir, args: &Arguments, answer: &mut Answer) {
    let text = args.text(dir.behind());
    match dir.name_of(answer.alloc(), text) {
        Ok(name) => answer.bytes(name.bytes()),
        Err(NameFault::NotStored) => answer.word("not stored"),
        Err(NameFault::NoMemory) => answer.lacks(),
    }
}

// The entry's name that stores an argument. Nothing stands behind it, and it is read back.
fn short(dir: &Dir, args: &Arguments, answer: &mut Answer) {
    let Some(name) = name(args, dir.behind(), answer) else {
        return;
    };
    let alloc = answer.alloc();
    let Ok(stored) = dir.stored(alloc, &name) else {
        return answer.lacks();
    };
    answer.unless(stored.full.is_none(), "a long name:");
    let is_read_back = dir.is_stored_as(alloc, stored.name.as_str(), &name);
    answer.unless(is_read_back, "it isn't read back:");
    answer.word(stored.name.as_str());
}

// The entry's name that stores an argument, whose text the next one writes. The text is read back, and has this entry.
fn long(dir: &Dir, args: &Arguments, answer: &mut Answer) {
    let (alloc, text) = (answer.alloc(), args.text(dir.behind() + 1));
    let Some(name) = name(args, dir.behind(), answer) else {
        return;
    };
    answer.unless(dir.is_stored_as(alloc, text, &name), "it isn't read back:");
    match dir.stored(alloc, &name) {
        Ok(stored) => long_told(&stored, text, dir.entry_of(alloc, text), answer),
        Err(_) => answer.lacks(),
    }
}

fn long_told(stored: &Stored, text: &str, entry: Result<String, AllocError>, answer: &mut Answer) {
    match &stored.full {
        Some(full) => answer.unless(full.as_str() == text, "another text:"),
        None => answer.word("a short name:"),
    }
    match entry {
        Ok(entry) => answer.unless(
            entry.as_str() == stored.name.as_str(),
            "its text has another entry:",
        ),
        Err(_) => answer.lacks(),
    }
    answer.word(stored.name.as_str());
}
