//! The commands, and the words that make them.
ghost use Rattle.std.specs.Prelude.{◌≡◌, IfOk, IfSome, map, string_bytes};
ghost use Rattle.command_words.specs.Commands.{command_of};
ghost use Rattle.command_words.specs.Written.{HasTexts, IsSmall};

use crate::making::command;
use crate::request::Request;
use crate::values::Format;
use folder_model::FPath;
use plain_tree::{NameMap, PlainPath};
use std::alloc::{AllocError, Global};

/// A plain path in a vault, and the file that holds the vault's passphrase.
#[derive(Drop)]
pub struct Target {
    pub vault: FPath,
    pub path: PlainPath,
    pub pass: FPath,
}

/// A vault that is checked, and the file that holds its passphrase.
#[derive(Drop)]
pub struct Checking {
    pub vault: FPath,
    pub pass: FPath,
}

/// A vault that is repaired, the folder for what is lost, and the file that holds the vault's passphrase.
#[derive(Drop)]
pub struct Repairing {
    pub vault: FPath,
    pub lost: FPath,
    pub pass: FPath,
}

/// A vault that is to be made: its format, its root, the file that holds its passphrase, and a work folder.
#[derive(Drop)]
pub struct NewVault {
    pub format: Format,
    pub vault: FPath,
    pub pass: FPath,
    pub work: FPath,
}

/// A plain path in a vault where something is to be made, and a work folder.
#[derive(Drop)]
pub struct Change {
    pub target: Target,
    pub work: FPath,
}

/// A vault whose passphrase is to be another one, the files that hold both, and a work folder.
#[derive(Drop)]
pub struct NewPass {
    pub vault: FPath,
    pub pass: FPath,
    pub new_pass: FPath,
    pub work: FPath,
}

/// The files that hold the passphrases of a migration's vaults.
#[derive(Drop)]
pub struct Passes {
    pub source: FPath,
    pub target: FPath,
}

/// A migration that is to be begun: from one vault into another, through a work folder.
#[derive(Drop)]
pub struct Moving {
    pub source: FPath,
    pub target: FPath,
    pub work: FPath,
    pub passes: Passes,
    /// What becomes of names on the way.
    pub names: NameMap,
}

/// The work folder of a migration that has begun.
#[derive(Drop)]
pub struct Resuming {
    pub work: FPath,
    pub passes: Passes,
}

/// A demonstration: the number that it is made from, and how many items it has.
#[derive(Clone, Copy, PartialEq, Eq, Drop)]
pub struct Demonstration {
    pub seed: u64,
    pub count: u64,
}

/// A command with its arguments.
#[derive(Drop)]
pub enum Command {
    /// `decrypt-file`: decrypts a gocryptfs content file from the input under this content key.
    DecryptFile([u8; 32]),
    /// `init`: makes a vault.
    Init(NewVault),
    /// `ls`: lists a directory, the root without PATH.
    Ls(Target),
    /// `cat`: writes a file's content.
    Cat(Target),
    /// `fsck`: tells what is found in a vault.
    Fsck(Checking),
    /// `mkdir`: makes a directory.
    Mkdir(Change),
    /// `put`: stores the input as a file.
    Put(Change),
    /// `repair`: moves the strays of a vault into a new folder.
    Repair(Repairing),
    /// `migrate`: moves a whole tree from one vault into another, its names in NFC
    /// where the flag stands.
    Migrate(Moving),
    /// `resume`: goes on with a migration.
    Resume(Resuming),
    /// `retire`: removes the source of a finished migration.
    Retire(Resuming),
    /// `passwd`: puts another passphrase in the place of one.
    Passwd(NewPass),
    /// `demo`: makes a tree of so many items from a number, and moves it there and back in memory.
    Demo(Demonstration),
}

impl Command {
    /// The command that these words make, or `None` where they make none.
    pub fn from_words(alloc: Global, words: &[String]) -> Result<Option<Command>, AllocError>
        ensures is { IfOk result (λ command. command ≡ command_of (map string_bytes words.now)) }
        ensures texts { IfOk result (λ command. IfSome command HasTexts) }
        ensures small { IfOk result (λ command. IfSome command IsSmall) }
    {
        match Request::read(alloc, words)? {
            Some(request) => Ok(command(request.row.verb, request.values)),
            None => Ok(None),
        }
    }
}
