//! How commands end.
ghost use Rattle.std.specs.Prelude.{◌≡◌};
ghost use Rattle.command_answers.specs.Answers.{status_of};

use chunk_files::ChunkFault;
use cryptomator_conf::CmConfFault;
use folder_model::FPath;
use folder_spec::FolderFault;
use gocrypt_conf::GoConfFault;
use plain_tree::PlainPath;
use std::alloc::AllocError;

/// What a message names: a path of the folder, or one of a vault's plain tree.
#[derive(Drop)]
pub enum Named {
    Folder(FPath),
    Plain(PlainPath),
}

/// Why a configuration is refused.
#[derive(Drop)]
pub enum Refusal {
    Gocryptfs(GoConfFault),
    Cryptomator(CmConfFault),
    /// The signature isn't that of the vault's keys.
    Signature,
}

/// What is damaged: a content, or a directory that is to be entered.
#[derive(Clone, Copy, PartialEq, Eq)]
pub enum Damage {
    Content(ChunkFault),
    NoDirKey,
    NoFolder,
}

/// A limit that is passed.
#[derive(Drop)]
pub enum Limit {
    /// The depth of a plain path.
    Depth,
    /// The number of a vault's items.
    Items,
    /// The length of the file at this path.
    Length(FPath),
    PassFile,
    Input,
    /// The depth of what is to be removed.
    Removal,
}

/// Why a journal is of no use.
#[derive(Clone, Copy, PartialEq, Eq)]
pub enum Flaw {
    /// There is none.
    Missing,
    /// The number of its first line that fits no journal.
    Line(u8),
    /// Items are still being placed.
    Building,
}

/// How an item of one tree differs from the other tree.
#[derive(Clone, Copy, PartialEq, Eq)]
pub enum Difference {
    /// The other has no such item.
    Missing,
    /// The other has an item of another kind.
    Kind,
    /// The contents aren't the same.
    Content,
    /// This one has no such item.
    Extra,
}

/// How a command ends.
#[derive(Drop)]
pub enum Answer {
    /// All was done.
    Done,
    /// All was done, and a check has findings.
    Findings,
    /// The words make no command.
    BadCommandLine,
    /// Memory was refused.
    OutOfMemory,
    /// The folder failed.
    FolderFault,
    /// The input failed.
    InputFault,
    /// The output failed.
    OutputFault,
    /// The random source failed.
    RandomFault,
    /// The configuration file at this path is refused.
    Refused(FPath, Refusal),
    /// The passphrase unlocks no keys of the vault at this root.
    WrongPass(FPath),
    /// Nothing stands there.
    NotFound(Named),
    /// Something of another kind stands there.
    WrongKind(Named),
    /// The input has this fault.
    DamagedInput(ChunkFault),
    /// What stands at this path is damaged so.
    Damaged(FPath, Damage),
    /// The vault allows no such name.
    NotAllowed(PlainPath),
    /// A vault that has to be clean isn't: the path and the number of its first finding.
    NotClean(FPath, u8),
    /// One of these folders is the other, or is in it.
    Overlap(FPath, FPath),
    /// Something stands at this path that is to be free.
    NotEmpty(FPath),
    /// This work folder has a journal.
    Begun(FPath),
    /// This work folder has no journal that is of use.
    Unusable(FPath, Flaw),
    /// The source isn't as it was when its migration began: the digest of its plan and its number of items then, and now.
    Changed([u8; 32], u64, [u8; 32], u64),
    /// The two trees differ at this path.
    Differ(PlainPath, Difference),
    /// Sixteen zero bytes were drawn, where these are refused.
    ZeroRandom,
    /// Something stands where a new item is to have its place.
    Taken(FPath),
    /// A limit is passed.
    Limit(Limit),
    /// The source of the migration in this work folder is retired.
    Retired(FPath),
    /// The items at these two paths of a migration's source come to one path in its target.
    Meet(PlainPath, PlainPath),
}

impl Answer {
    /// The status that the program ends with.
    pub fn status(&self) -> u8
        ensures { result ≡ status_of self.now }
    {
        match self {
            Answer::Done => 0,
            Answer::Findings => 1,
            Answer::BadCommandLine => 2,
            Answer::OutOfMemory => 3,
            Answer::FolderFault => 4,
            Answer::InputFault => 5,
            Answer::OutputFault => 6,
            Answer::RandomFault => 7,
            Answer::Refused(_, _) => 8,
            Answer::WrongPass(_) => 9,
            Answer::NotFound(_) => 10,
            Answer::WrongKind(_) => 11,
            Answer::DamagedInput(_) => 12,
            Answer::Damaged(_, _) => 12,
            Answer::NotAllowed(_) => 13,
            Answer::NotClean(_, _) => 14,
            Answer::Overlap(_, _) => 15,
            Answer::NotEmpty(_) => 16,
            Answer::Begun(_) => 17,
            Answer::Unusable(_, _) => 18,
            Answer::Changed(_, _, _, _) => 19,
            Answer::Differ(_, _) => 20,
            Answer::ZeroRandom => 21,
            Answer::Taken(_) => 22,
            Answer::Limit(_) => 23,
            Answer::Retired(_) => 24,
            Answer::Meet(_, _) => 25,
        }
    }
}

impl From<AllocError> for Answer {
    ghost use Rattle.std.specs.Prelude.{◌≡◌};
    ghost use Rattle.command_answers.specs.declared.answer.Answer.TheVariants.{OutOfMemory};

    ghost from_gives = { λ _ answer. answer ≡ OutOfMemory };

    fn from(_fault: AllocError) -> Answer {
        Answer::OutOfMemory
    }
}

impl From<FolderFault> for Answer {
    ghost use Rattle.std.specs.Prelude.{◌≡◌};
    ghost use Rattle.command_answers.specs.Answers.{of_folder};

    ghost from_gives = { λ fault answer. answer ≡ of_folder fault };

    fn from(fault: FolderFault) -> Answer {
        match fault {
            FolderFault::Failed => Answer::FolderFault,
            FolderFault::Refused => Answer::FolderFault,
            FolderFault::NoMemory => Answer::OutOfMemory,
        }
    }
}
