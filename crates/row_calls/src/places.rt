//! Lines that make vaults and what is in them, or name what stands in a vault's folder.
use crate::writing::init;
use cryptomator_conf::Combo;
use folder_model::FPath;
use plain_tree::{NodeKind, PlainPath};
use port_model::MemSink;
use row_playing::{Stage, Stop};
use row_words::cut;
use std::alloc::AllocError;
use vault_read::{CmVault, Item, Vault, VaultKeys, cat, enter, find, list};
use vault_values::{CmKeys, GoKeys};

/// The passphrase of the vaults in rows.
pub const PASSPHRASE: &[u8] = b"secret";

/// The work folder of the lines that make vaults, directories and files.
pub const WORK: &str = "w";

// The most bytes of a file that are read.
const MOST_READ: usize = 1_000_000;

// The keys of the vaults that no configuration opens.
const GO_KEYS: GoKeys = GoKeys {
    content: [3; 32],
    names: [4; 32],
};

const CM_KEYS: CmKeys = CmKeys {
    enc: [5; 32],
    mac: [6; 32],
};

fn cm_keys(combo: Combo) -> VaultKeys {
    VaultKeys::Cryptomator(CmVault {
        keys: CM_KEYS,
        combo,
        threshold: 220,
    })
}

fn keys_named(word: &str) -> Option<VaultKeys> {
    match word {
        "go" => Some(VaultKeys::Gocryptfs(GO_KEYS)),
        "cm" => Some(cm_keys(Combo::SivGcm)),
        "ctr" => Some(cm_keys(Combo::SivCtrMac)),
        _ => None,
    }
}

/// The vault that a word names: `go:ROOT`, `cm:ROOT` and `ctr:ROOT` have keys of their own, `demo:ROOT` opens by the passphrase
/// `demo`, and ROOT by that of the vaults in rows.
pub fn vault_named(stage: &mut Stage, word: &str) -> Option<Vault> {
    let Some((keys, root)) = word.split_once(':') else {
        return vault_at(stage, word, PASSPHRASE);
    };
    if let Some(keys) = keys_named(keys) {
        return Some(Vault::new(stage.path(root), keys));
    }
    if keys != "demo" {
        stage.stop(Stop::Line);
    }
    vault_at(stage, root, b"demo")
}

/// The vault at a path.
pub fn vault_at(stage: &mut Stage, word: &str, pass: &[u8]) -> Option<Vault> {
    let at = stage.path(word);
    let loaded = Vault::load(stage.alloc, &mut stage.folder, &at, pass);
    if loaded.is_err() {
        stage.stop(Stop::Vault);
    }
    loaded.ok()
}

/// The plain path that a word writes.
pub fn plain_path(stage: &mut Stage, word: &str) -> PlainPath {
    if word.contains(' ') {
        stage.stop(Stop::Line);
    }
    match PlainPath::parse(stage.alloc, word) {
        Ok(path) => path,
        Err(_) => {
            stage.stop(Stop::Line);
            PlainPath::root(stage.alloc)
        }
    }
}

// Makes a vault of a format at the smallest cost of scrypt: `FORMAT AT`.
fn make_vault(stage: &mut Stage, words: &str) {
    let (format, at) = cut(words);
    let verb = match format {
        "gocryptfs" => "init_go",
        "cryptomator" => "init_cm",
        "cryptomator-ctrmac" => "init_ctr",
        _ => return stage.stop(Stop::Line),
    };
    let Ok(mut handed) = stage.hand() else {
        return stage.stop(Stop::NoMemory);
    };
    let work = stage.path(WORK);
    let at = stage.path(at);
    init(stage, verb, &work, &at, &mut handed);
    need_done(stage);
}

// The path of an item in the folder: of a directory its entry, of a file the file of its content.
fn item(stage: &mut Stage, vault: &Vault, path: &PlainPath) -> Option<FPath> {
    let place = find(stage.alloc, &mut stage.folder, vault, path).ok()?;
    Some(place.at)
}

// The path of the folder that holds the entries of a directory.
fn inside(stage: &mut Stage, vault: &Vault, path: &PlainPath) -> Option<FPath> {
    let place = enter(stage.alloc, &mut stage.folder, vault, path).ok()?;
    Some(place.folder)
}

// Names a path in a vault's folder: `NAME VAULT PATH`.
fn name_place(stage: &mut Stage, verb: &str, words: &str) {
    let (name, words) = cut(words);
    let (vault, path) = cut(words);
    let path = plain_path(stage, path);
    let Some(vault) = vault_at(stage, vault, PASSPHRASE) else {
        return;
    };
    let at = match verb {
        "item" => item(stage, &vault, &path),
        _ => inside(stage, &vault, &path),
    };
    match at {
        Some(at) => name_path(stage, name, &at),
        None => stage.stop(Stop::Vault),
    }
}

// Has a name stand for a path.
fn name_path(stage: &mut Stage, name: &str, at: &FPath) {
    match at.text() {
        Ok(text) => stage.set_name(name, text.as_str()),
        Err(_) => stage.stop(Stop::NoMemory),
    }
}

/// What was done last has to have ended well. Nothing is said of it.
pub fn need_done(stage: &mut Stage) {
    drop_said(stage);
    if stage.status != 0 {
        stage.stop(Stop::Undone);
    }
}

/// Drops what was said.
pub fn drop_said(stage: &mut Stage) {
    if stage.said.take().is_err() {
        stage.stop(Stop::NoMemory);
    }
}

// Adds the paths of the items of a directory, the last first.
fn push_items(
    stage: &mut Stage,
    vault: &Vault,
    at: &PlainPath,
    left: &mut Vec<(PlainPath, NodeKind)>,
) {
    match list(stage.alloc, &mut stage.folder, vault, at).ok() {
        Some(items) => {
            let pushed = push_below(at, items.as_slice(), left);
            stage.whole(pushed);
        }
        None => stage.stop(Stop::Vault),
    }
}

// Adds the paths of items of a directory, the last first.
fn push_below(
    at: &PlainPath,
    items: &[Item],
    left: &mut Vec<(PlainPath, NodeKind)>,
) -> Result<(), AllocError> {
    for item in items.iter().rev() {
        left.push((at.child(&item.name)?, item.node))?;
    }
    Ok(())
}

// Says a file of a vault with its content, as far as it can be read.
fn say_file(stage: &mut Stage, vault: &Vault, at: &PlainPath) {
    let alloc = stage.alloc;
    let Ok(mut out) = MemSink::new(alloc, MOST_READ, Vec::new(alloc)) else {
        return stage.stop(Stop::NoMemory);
    };
    let length = cat(alloc, &mut stage.folder, vault, at, &mut out).ok();
    stage
        .said
        .word(if length.is_some() { "f" } else { "damaged" });
    stage.said.made(at.shown());
    stage.say_bytes(out.bytes());
}

// Says what a vault opens, in the order of paths.
fn tree(stage: &mut Stage, word: &str) {
    let Some(vault) = vault_at(stage, word, PASSPHRASE) else {
        return;
    };
    let mut left = Vec::new(stage.alloc);
    push_items(stage, &vault, &PlainPath::root(stage.alloc), &mut left);
    for _ in 0..10_000u32 {
        let Some((at, node)) = left.pop() else {
            return;
        };
        say_item(stage, &vault, &at, node, &mut left);
    }
    stage.stop(Stop::Line);
}

// Says an item, and adds what is in it.
fn say_item(
    stage: &mut Stage,
    vault: &Vault,
    at: &PlainPath,
    node: NodeKind,
    left: &mut Vec<(PlainPath, NodeKind)>,
) {
    match node {
        NodeKind::Dir => {
            stage.said.word("d");
            stage.said.made(at.shown());
            stage.said.end();
            push_items(stage, vault, at, left);
        }
        NodeKind::File => say_file(stage, vault, at),
    }
}

/// Plays a line that makes a vault, names a place in one, or says what it opens.
pub fn place(stage: &mut Stage, verb: &str, words: &str) {
    match verb {
        "vault" => make_vault(stage, words),
        "tree" => tree(stage, words),
        _ => name_place(stage, verb, words),
    }
}
