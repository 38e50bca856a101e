//! The folder and the random bytes of the machine itself.
use crate::doing::{Doing, Step, play, same};
use folder_model::{FPath, Folder, FolderFault, Kind};
use host_ports::{HostFolder, HostRandoms};
use port_model::Randoms;
use std::alloc::{Alloc, Global};
use std::fs;
use std::fs::Files;
use std::process::Abort;
use std::test::Fail;

const REFUSED: Option<FolderFault> = Some(FolderFault::Refused);

// Two directories, and a file of four bytes in one of them that was staged.
const FILLING: [Step; 8] = [
    (Doing::MakeDir, "dir", None),
    (Doing::MakeDir, "dir/c", None),
    (Doing::Create, "staged", None),
    (Doing::Append, "staged", None),
    (Doing::Append, "staged", None),
    (Doing::Sync, "staged", None),
    (Doing::Rename("dir/b file"), "staged", None),
    (Doing::Settle, "dir", None),
];

// A link to a directory, which also stands there then, is neither listed nor read.
const REFUSING: [Step; 6] = [
    (Doing::Create, "dir/b file", REFUSED),
    (Doing::Rename("dir/c"), "dir/b file", REFUSED),
    (Doing::RemoveDir, "dir", REFUSED),
    (Doing::List, "dir/a link", REFUSED),
    (Doing::Read, "dir/a link", REFUSED),
    (Doing::Read, "dir/a link/b file", REFUSED),
];

const REMOVING: [Step; 4] = [
    (Doing::RemoveFile, "dir/b file", None),
    (Doing::RemoveDir, "dir/c", None),
    (Doing::RemoveDir, "dir", None),
    (Doing::Settle, "dir", None),
];

// What a read from a place on gives of the file: how many bytes, and what then stands in the buffer.
const READS: [(u64, usize, [u8; 4]); 3] = [(1, 3, *b"ede."), (3, 1, *b"e..."), (5, 0, *b"....")];

const ENTRIES: [(&str, Kind); 3] = [
    ("a link", Kind::Other),
    ("b file", Kind::File),
    ("c", Kind::Dir),
];

// What stands at each path. No link is followed.
const KINDS: [(&str, Kind); 5] = [
    ("dir", Kind::Dir),
    ("dir/a link", Kind::Other),
    ("dir/a link/b file", Kind::Missing),
    ("dir/b file", Kind::File),
    ("nowhere/b file", Kind::Missing),
];

fn reads<F: Folder>(rt: &impl Abort, alloc: Global, folder: &mut F) -> Result<(), Fail> {
    let file = FPath::parse(alloc, "dir/b file")?;
    for (start, count, piece) in &READS {
        let mut out = *b"....";
        let read = folder.read(&file, *start, &mut out)?;
        same(rt, "dir/b file", &read, count);
        same(rt, "dir/b file", &out, piece);
    }
    Ok(())
}

fn lists<F: Folder>(rt: &impl Abort, alloc: Global, folder: &mut F) -> Result<(), Fail> {
    let dir = FPath::parse(alloc, "dir")?;
    let entries = folder.list(&dir)?;
    same(rt, "dir", &entries.len(), &ENTRIES.len());
    for (entry, (name, kind)) in entries.iter().zip(&ENTRIES) {
        same(rt, name, &entry.name.as_str(), name);
        same(rt, name, &entry.kind, kind);
    }
    Ok(())
}

fn kinds<F: Folder>(rt: &impl Abort, alloc: Global, folder: &mut F) -> Result<(), Fail> {
    for (text, kind) in &KINDS {
        let at = FPath::parse(alloc, text)?;
        let found = folder.kind(&at)?;
        same(rt, text, &found, kind);
    }
    Ok(())
}

fn refuses_dots<F: Folder>(rt: &impl Abort, alloc: Global, folder: &mut F) -> Result<(), Fail> {
    let dir = FPath::parse(alloc, "dir")?;
    let above = dir.child("..")?;
    same(
        rt,
        "dir/..",
        &folder.kind(&above).err(),
        &Some(FolderFault::Failed),
    );
    Ok(())
}

// What the folder answers where these and the link stand.
fn answers<F: Folder>(rt: &impl Abort, alloc: Global, folder: &mut F) -> Result<(), Fail> {
    reads(rt, alloc, folder)?;
    lists(rt, alloc, folder)?;
    kinds(rt, alloc, folder)?;
    refuses_dots(rt, alloc, folder)?;
    play(rt, alloc, folder, &REFUSING)
}

// What the machine itself says of the file.
fn has_bytes(rt: &impl Abort, files: &(impl Files + Alloc)) -> Result<(), Fail> {
    let bytes = fs::read(files, "dir/b file")?;
    same(rt, "dir/b file", &bytes.as_slice(), &b"dede".as_slice());
    Ok(())
}

fn is_gone(rt: &impl Abort, files: &(impl Files + Alloc)) -> Result<(), Fail> {
    same(rt, "dir", &fs::exists(files, "dir")?, &false);
    Ok(())
}

// A folder over the directory that this runs in.
fn holds<F: Folder>(
    rt: &impl Abort,
    files: &(impl Files + Alloc),
    alloc: Global,
    folder: &mut F,
) -> Result<(), Fail> {
    play(rt, alloc, folder, &FILLING)?;
    has_bytes(rt, files)?;
    files.symlink("../dir", "dir/a link")?;
    answers(rt, alloc, folder)?;
    fs::remove_file(files, "dir/a link")?;
    play(rt, alloc, folder, &REMOVING)?;
    is_gone(rt, files)
}

#[test]
fn a_folder_of_the_machine(rt: HostRuntime) -> Result<(), Fail> {
    let mut folder = HostFolder::new(rt.clone()?, rt.alloc(), "")?;
    holds(&rt, &rt, rt.alloc(), &mut folder)
}

#[test]
fn random_bytes_of_the_machine(rt: HostRuntime) -> Result<(), Fail> {
    let mut random = HostRandoms::new(rt.clone()?);
    let mut one = [0; 32];
    let mut other = [0; 32];
    random.fill(&mut one)?;
    random.fill(&mut other)?;
    assert!(rt; one != other);
    assert!(rt; one != [0; 32]);
    Ok(())
}
