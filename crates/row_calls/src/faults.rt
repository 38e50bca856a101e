//! How the faults of layers are said: by their names, and what they name.
use chunk_files::ChunkFault;
use folder_model::{FPath, FolderFault};
use move_journal::JournalFault;
use plain_tree::PlainPath;
use row_words::Said;
use tree_match::{MapFault, MatchFault};
use vault_check::CheckFault;
use vault_faults::{CatFault, FindFault, Limit};
use vault_read::LoadFault;
use vault_walk::{Finding, WalkFault};
use vault_write::PutFault;
use work_folder::WorkFault;

/// A fault of a folder.
pub fn folder_word(fault: FolderFault) -> &'static str {
    match fault {
        FolderFault::Failed => "Failed",
        FolderFault::Refused => "Refused",
        FolderFault::NoMemory => "NoMemory",
    }
}

/// A word with a path of the folder.
pub fn path_fault(said: &mut Said, word: &str, at: FPath) {
    said.word(word);
    said.made(at.text());
}

/// A word with a plain path.
pub fn plain_fault(said: &mut Said, word: &str, path: PlainPath) {
    said.word(word);
    said.made(path.shown());
}

// A content file with its fault.
fn damaged(said: &mut Said, at: FPath, fault: ChunkFault) {
    path_fault(said, "Damaged", at);
    said.shows(&fault);
}

fn limit_fault(said: &mut Said, limit: Limit) {
    match limit {
        Limit::Depth => said.word("Limit Depth"),
        Limit::Items => said.word("Limit Items"),
        Limit::Length(at) => path_fault(said, "Limit Length", at),
        Limit::Input => said.word("Limit Input"),
    }
}

pub fn journal_fault(said: &mut Said, fault: JournalFault) {
    match fault {
        JournalFault::NoJournal => said.word("NoJournal"),
        JournalFault::BadJournal(line) => {
            said.word("BadJournal");
            said.shows(&line);
        }
        JournalFault::TooLarge => said.word("TooLarge"),
        JournalFault::Failed => said.word("Failed"),
        JournalFault::NoMemory => said.word("NoMemory"),
    }
}

pub fn work_fault(said: &mut Said, fault: WorkFault) {
    match fault {
        WorkFault::NoParent(at) => path_fault(said, "NoParent", at),
        WorkFault::WrongKind(at) => path_fault(said, "WrongKind", at),
        WorkFault::Foreign(at) => path_fault(said, "Foreign", at),
        WorkFault::Begun => said.word("Begun"),
        WorkFault::Depth => said.word("Depth"),
        WorkFault::Failed => said.word("Failed"),
        WorkFault::NoMemory => said.word("NoMemory"),
    }
}

pub fn load_fault(said: &mut Said, fault: LoadFault) {
    match fault {
        LoadFault::Missing(at) => path_fault(said, "Missing", at),
        LoadFault::WrongKind(at) => path_fault(said, "WrongKind", at),
        LoadFault::TooLarge(at) => path_fault(said, "TooLarge", at),
        LoadFault::Go(_) => said.word("Go"),
        LoadFault::Cm(at, _) => path_fault(said, "Cm", at),
        LoadFault::WrongPass => said.word("WrongPass"),
        LoadFault::BadSignature => said.word("BadSignature"),
        LoadFault::Failed => said.word("Failed"),
        LoadFault::NoMemory => said.word("NoMemory"),
    }
}

pub fn find_fault(said: &mut Said, fault: FindFault) {
    match fault {
        FindFault::NotFound(path) => plain_fault(said, "NotFound", path),
        FindFault::WrongKind(path) => plain_fault(said, "WrongKind", path),
        FindFault::NoDirKey(at) => path_fault(said, "NoDirKey", at),
        FindFault::NoFolder(at) => path_fault(said, "NoFolder", at),
        FindFault::Failed => said.word("Failed"),
        FindFault::NoMemory => said.word("NoMemory"),
    }
}

pub fn cat_fault(said: &mut Said, fault: CatFault) {
    match fault {
        CatFault::Find(fault) => find_fault(said, fault),
        CatFault::Damaged(at, fault) => damaged(said, at, fault),
        CatFault::Limit(limit) => limit_fault(said, limit),
        CatFault::Sink => said.word("Sink"),
        CatFault::Failed => said.word("Failed"),
        CatFault::NoMemory => said.word("NoMemory"),
    }
}

/// A finding with its number, its path, and the fault of a content.
pub fn finding_line(said: &mut Said, finding: &Finding) {
    said.shows(&finding.number);
    said.made(finding.at.text());
    if let Some(fault) = &finding.fault {
        said.shows(fault);
    }
}

pub fn walk_fault(said: &mut Said, fault: WalkFault) {
    match fault {
        WalkFault::NotClean(finding) => {
            said.word("NotClean");
            finding_line(said, &finding);
        }
        WalkFault::Limit(limit) => limit_fault(said, limit),
        WalkFault::Failed => said.word("Failed"),
        WalkFault::NoMemory => said.word("NoMemory"),
    }
}

pub fn check_fault(said: &mut Said, fault: CheckFault) {
    match fault {
        CheckFault::Limit(limit) => limit_fault(said, limit),
        CheckFault::Failed => said.word("Failed"),
        CheckFault::NoMemory => said.word("NoMemory"),
    }
}

pub fn match_fault(said: &mut Said, fault: MatchFault) {
    match fault {
        MatchFault::Damaged(at, fault) => damaged(said, at, fault),
        MatchFault::Limit(limit) => limit_fault(said, limit),
        MatchFault::Failed => said.word("Failed"),
        MatchFault::NoMemory => said.word("NoMemory"),
    }
}

pub fn map_fault(said: &mut Said, fault: MapFault) {
    match fault {
        MapFault::NotAName(path) => plain_fault(said, "NotAName", path),
        MapFault::Meet(one, other) => {
            plain_fault(said, "Meet", one);
            said.made(other.shown());
        }
        MapFault::NoMemory => said.word("NoMemory"),
    }
}

pub fn put_fault(said: &mut Said, fault: PutFault) {
    match fault {
        PutFault::Find(fault) => find_fault(said, fault),
        PutFault::NotAllowed(path) => plain_fault(said, "NotAllowed", path),
        PutFault::Taken(at) => path_fault(said, "Taken", at),
        PutFault::Damaged(at, fault) => damaged(said, at, fault),
        PutFault::Limit(limit) => limit_fault(said, limit),
        PutFault::ZeroRandom => said.word("ZeroRandom"),
        PutFault::Source => said.word("Source"),
        PutFault::Random => said.word("Random"),
        PutFault::Failed => said.word("Failed"),
        PutFault::NoMemory => said.word("NoMemory"),
    }
}
