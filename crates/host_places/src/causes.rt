//! Why calls of a folder of the machine fail.

ghost use Rattle.std.specs.Prelude.{◌≡◌, ◌≢◌, ◌↔◌, ◌⊎◌};
ghost use Rattle.std.specs.Fs.{IsDir, IsFile};
ghost use Rattle.std.specs.IoError.{error_kind};
ghost use Rattle.folder_spec.specs.declared.Kind.TheVariants.{Dir, File, Missing};
ghost use Rattle.host_places.specs.Causes.{IsFailure, fault_by};

use folder_model::{FPath, FolderFault, Kind};
use std::alloc::{AllocError, Global};
use std::fs::FileType;
use std::io;
use std::io::ErrorKind;

/// Why a call failed or was refused.
#[derive(Clone, Copy)]
pub enum Cause {
    /// What stands there, or that nothing does, is in the way of the call.
    InTheWay,
    NoMemory,
    /// Another run holds it.
    Held,
    /// What was claimed there doesn't stand there any more.
    Exchanged,
    /// No journal of use was there when this run began, so it claimed no more.
    Unclaimed,
    /// gocryptfs has it mounted.
    Mounted,
    /// Another program changed it since it was listed.
    Changed,
    /// It isn't on the file system of what it has to move to.
    OtherFileSystem,
    /// A part of the path is no name of an entry.
    BadName,
    /// A name there isn't UTF-8.
    NotText,
    /// A name stands there twice.
    NameTwice,
    /// What stands there isn't the file that was made.
    Replaced,
    /// What the machine answered, and the error's number, or 0 where it has none.
    Machine(ErrorKind, i32),
    /// The same, to a sync: what was to last may be lost.
    Unsynced(ErrorKind, i32),
}

impl From<AllocError> for Cause {
    ghost use Rattle.std.specs.Prelude.{◌≡◌};
    ghost use Rattle.host_places.specs.declared.causes.Cause.TheVariants.{NoMemory};

    ghost from_gives = { λ _ result. result ≡ NoMemory };

    fn from(_fault: AllocError) -> Cause {
        Cause::NoMemory
    }
}

impl From<io::Error> for Cause {
    fn from(error: io::Error) -> Cause {
        cause_of(&error)
    }
}

impl Cause {
    /// Whether the path at which it was found is told already, which isn't that of the call.
    pub fn is_told(self) -> bool {
        matches!(self, Cause::Changed | Cause::Exchanged)
    }

    pub fn is_held(self) -> bool {
        matches!(self, Cause::Held)
    }

    /// What is said of it.
    pub fn message(self, alloc: Global) -> Result<String, AllocError> {
        match self {
            Cause::InTheWay => String::from_str(alloc, "what stands there is in the way"),
            Cause::NoMemory => String::from_str(alloc, "out of memory"),
            Cause::Held => String::from_str(alloc, "another run holds it"),
            Cause::Exchanged => String::from_str(alloc, "another program moved or removed it"),
            Cause::Unclaimed => String::from_str(alloc, "it came since this run began"),
            Cause::Mounted => String::from_str(alloc, "gocryptfs has it mounted"),
            Cause::Changed => String::from_str(alloc, "another program changed it"),
            Cause::OtherFileSystem => String::from_str(alloc, "on another file system"),
            Cause::BadName => String::from_str(alloc, "no name of an entry"),
            Cause::NotText => String::from_str(alloc, "a name there isn't UTF-8"),
            Cause::NameTwice => String::from_str(alloc, "a name stands there twice"),
            Cause::Replaced => String::from_str(alloc, "another file stands there"),
            Cause::Machine(kind, number) => told_of(alloc, kind, number),
            Cause::Unsynced(kind, number) => {
                let told = told_of(alloc, kind, number)?;
                format!(in alloc; "a sync failed: {told}")
            }
        }
    }
}

/// The path at which a call failed, where it has one and there was memory for it, and why.
#[derive(Drop)]
pub struct Trouble {
    pub at: Option<FPath>,
    pub cause: Cause,
}

impl Trouble {
    pub fn new(at: &FPath, cause: Cause) -> Trouble
        ensures { result.cause ≡ cause }
    {
        Trouble {
            at: at.copy().ok(),
            cause,
        }
    }
}

// The cause that an error is. What stands in the way of a call refuses it.
fn cause_of(error: &io::Error) -> Cause
    ensures { (result ≡ Cause.NoMemory) ↔ (error_kind error.now ≡ ErrorKind.OutOfMemory) }
{
    match error.kind() {
        ErrorKind::OutOfMemory => Cause::NoMemory,
        ErrorKind::NotFound
        | ErrorKind::AlreadyExists
        | ErrorKind::NotADirectory
        | ErrorKind::IsADirectory
        | ErrorKind::DirectoryNotEmpty => Cause::InTheWay,
        kind => Cause::Machine(kind, number_of(error)),
    }
}

// The number of an error of the machine, or 0.
pub fn number_of(error: &io::Error) -> i32 {
    error.raw_os_error().unwrap_or(0)
}

/// The cause that the error of a sync is: where the machine says that something stands in the way, it is one all the same.
pub fn unsynced(error: &io::Error) -> Cause
    ensures { IsFailure result ⊎ (result ≡ Cause.NoMemory) }
{
    match error.kind() {
        ErrorKind::OutOfMemory => Cause::NoMemory,
        kind => Cause::Unsynced(kind, number_of(error)),
    }
}

// What is told of an error of the machine: its kind, and its name and number where the kind doesn't tell it.
fn told_of(alloc: Global, kind: ErrorKind, number: i32) -> Result<String, AllocError> {
    match name_of(number) {
        Some(name) => format!(in alloc; "{name}, error {number}"),
        None if kind == ErrorKind::Uncategorized && number > 0 => format!(in alloc;
            "error {number}"
        ),
        None => format!(in alloc; "{kind}"),
    }
}

// The name of an error whose kind doesn't tell it.
fn name_of(number: i32) -> Option<&'static str> {
    match number {
        5 => Some("input/output error"),
        6 => Some("no such device"),
        23 | 24 => Some("too many open files"),
        36 => Some("name too long"),
        117 => Some("the file system is damaged"),
        _ => None,
    }
}

/// The fault that a cause is.
pub fn fault_of(cause: Cause) -> FolderFault
    ensures { result ≡ fault_by cause }
{
    match cause {
        Cause::NoMemory => FolderFault::NoMemory,
        Cause::InTheWay => FolderFault::Refused,
        _ => FolderFault::Failed,
    }
}

// What stands there, by its type. A link is neither a directory nor a file, whatever it leads to.
pub fn kind_of(stands: FileType) -> Kind
    ensures dir { (result ≡ Dir) ↔ IsDir stands }
    ensures file { (result ≡ File) ↔ IsFile stands }
    ensures something { result ≢ Missing }
{
    if stands.is_dir() {
        Kind::Dir
    } else if stands.is_file() {
        Kind::File
    } else {
        Kind::Other
    }
}
