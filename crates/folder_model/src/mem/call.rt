//! The calls that a folder in memory has logged.
use crate::path::FPath;

/// A call that changes the folder.
#[derive(Drop)]
pub enum Call {
    MakeDir(FPath),
    Create(FPath),
    Append(FPath, Vec<u8>),
    Sync(FPath),
    Settle,
    Rename(FPath, FPath),
    RemoveFile(FPath),
    RemoveDir(FPath),
}

/// How a call ended: of a failed one, how many bytes it had added.
#[derive(Clone, Copy, PartialEq, Eq, Drop)]
pub enum Outcome {
    Done,
    Failed(usize),
    Refused,
}

/// A call that was answered.
#[derive(Drop)]
pub struct Logged {
    pub call: Call,
    pub outcome: Outcome,
}
