//! Calls of a folder, and their faults.
use folder_model::{FPath, Folder, FolderFault};
use std::alloc::Global;
use std::fmt::Debug;
use std::process::Abort;
use std::test::Fail;

/// A call.
#[derive(Clone, Copy)]
pub enum Doing {
    Kind,
    List,
    Read,
    MakeDir,
    Create,
    /// Of the bytes `de`.
    Append,
    Sync,
    Settle,
    /// To the path `to`.
    Rename(&'static str),
    RemoveFile,
    RemoveDir,
}

/// A call, the path that it is made at, and its fault.
pub type Step = (Doing, &'static str, Option<FolderFault>);

/// Makes these calls one after the other, and compares their faults.
pub fn play<F: Folder>(
    rt: &impl Abort,
    alloc: Global,
    folder: &mut F,
    steps: &[Step],
) -> Result<(), Fail> {
    for (number, (doing, at, fault)) in steps.iter().enumerate() {
        let found = made_at(alloc, folder, *doing, at)?;
        assert_eq!(rt; found, *fault, "step {number}, at {at}");
    }
    Ok(())
}

/// Compares what was found at a path with what is wanted there.
pub fn same<T: PartialEq + Debug>(rt: &impl Abort, at: &str, found: &T, wanted: &T) {
    assert_eq!(rt; *found, *wanted, "at {at}");
}

fn made_at<F: Folder>(
    alloc: Global,
    folder: &mut F,
    doing: Doing,
    at: &str,
) -> Result<Option<FolderFault>, Fail> {
    let at = FPath::parse(alloc, at)?;
    answer(alloc, folder, doing, &at)
}

fn answer<F: Folder>(
    alloc: Global,
    folder: &mut F,
    doing: Doing,
    at: &FPath,
) -> Result<Option<FolderFault>, Fail> {
    Ok(match doing {
        Doing::Kind => folder.kind(at).err(),
        Doing::List => folder.list(at).err(),
        Doing::Read => folder.read(at, 0, &mut [0; 4]).err(),
        Doing::MakeDir => folder.make_dir(at).err(),
        Doing::Create => folder.create(at).err(),
        Doing::Append => folder.append(at, b"de").err(),
        Doing::Sync => folder.sync(at).err(),
        Doing::Settle => folder.settle().err(),
        Doing::Rename(to) => renamed(alloc, folder, at, to)?,
        Doing::RemoveFile => folder.remove_file(at).err(),
        Doing::RemoveDir => folder.remove_dir(at).err(),
    })
}

fn renamed<F: Folder>(
    alloc: Global,
    folder: &mut F,
    at: &FPath,
    to: &str,
) -> Result<Option<FolderFault>, Fail> {
    let to = FPath::parse(alloc, to)?;
    Ok(folder.rename(at, &to).err())
}
