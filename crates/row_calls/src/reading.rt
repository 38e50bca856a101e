//! Calls of vault_read.
ghost use Rattle.vault_read.specs.Opened.{FitsKey};

use crate::faults::{cat_fault, find_fault, load_fault};
use crate::places::{plain_path, vault_named};
use folder_model::{FPath, Folder, Kind};
use plain_tree::{NodeKind, PlainPath};
use row_playing::stage::MOST_SHOWN;
use row_playing::{Handed, Stage, Stop};
use row_words::cut;
use std::alloc::Global;
use vault_faults::FindFault;
use vault_read::{Found, Vault, VaultKind, cat, enter, find, items_in, list};

/// The letter of a directory or a file.
pub fn node_letter(node: NodeKind) -> &'static str {
    match node {
        NodeKind::Dir => "d",
        NodeKind::File => "f",
    }
}

// Opens a vault by a passphrase: `AT PASS`.
fn call_load(stage: &mut Stage, words: &str) {
    let (at, pass) = cut(words);
    let root = stage.path(at);
    match Vault::load(stage.alloc, &mut stage.folder, &root, pass.as_bytes()) {
        Ok(vault) => stage.done(match vault.kind() {
            VaultKind::Gocryptfs => "gocryptfs",
            VaultKind::Cryptomator => "cryptomator",
        }),
        Err(fault) => {
            load_fault(&mut stage.said, fault);
            stage.ended(1);
        }
    }
}

fn say_find_fault(stage: &mut Stage, fault: FindFault) {
    find_fault(&mut stage.said, fault);
    stage.ended(1);
}

fn call_find(stage: &mut Stage, vault: &Vault, path: &PlainPath) {
    match find(stage.alloc, &mut stage.folder, vault, path) {
        Ok(place) => {
            stage.said.word(node_letter(place.node));
            stage.said.made(place.at.text());
            stage.ended(0);
        }
        Err(fault) => say_find_fault(stage, fault),
    }
}

// Says the entry of a directory, the folder of its entries, and its key.
fn say_dir(stage: &mut Stage, at: &FPath, folder: &FPath, key: &[u8]) {
    stage.said.made(at.text());
    stage.said.made(folder.text());
    stage.said.hex(key);
    stage.ended(0);
}

fn call_enter(stage: &mut Stage, vault: &Vault, path: &PlainPath) {
    match enter(stage.alloc, &mut stage.folder, vault, path) {
        Ok(place) => say_dir(stage, &place.at, &place.folder, place.key.as_slice()),
        Err(fault) => say_find_fault(stage, fault),
    }
}

fn call_list(stage: &mut Stage, vault: &Vault, path: &PlainPath) {
    match list(stage.alloc, &mut stage.folder, vault, path) {
        Ok(items) => {
            for item in &items {
                stage.said.word(node_letter(item.node));
                stage.said.made(item.name.shown());
                stage.said.end();
            }
            stage.done("done");
        }
        Err(fault) => say_find_fault(stage, fault),
    }
}

fn say_found(stage: &mut Stage, found: &[Found]) {
    for one in found {
        stage.said.word(node_letter(one.item.node));
        stage.said.made(one.item.name.shown());
        stage.said.made(one.at.text());
        stage.said.end();
    }
    stage.done("done");
}

// The items that a folder of a vault holds by a key. What is no folder has failed.
fn found_in<F: Folder>(
    alloc: Global,
    folder: &mut F,
    vault: &Vault,
    at: &FPath,
    key: &[u8],
) -> Result<Vec<Found>, FindFault>
    requires { FitsKey vault.now.vault key.now }
{
    let full = vault.root().joined(at)?;
    match folder.kind(&full)? {
        Kind::Dir => items_in(alloc, folder, vault, at, key),
        Kind::Missing | Kind::File | Kind::Other => Err(FindFault::Failed),
    }
}

// Says the items that a folder holds by the key of the directory at a path, and their places: `FOLDER PATH`.
fn call_items_in(stage: &mut Stage, vault: &Vault, words: &str) {
    let (folder, path) = cut(words);
    let at = stage.path(folder);
    let path = plain_path(stage, path);
    match enter(stage.alloc, &mut stage.folder, vault, &path) {
        Ok(dir) => {
            let key = dir.key.as_slice();
            match found_in(stage.alloc, &mut stage.folder, vault, &at, key) {
                Ok(found) => say_found(stage, found.as_slice()),
                Err(fault) => say_find_fault(stage, fault),
            }
        }
        Err(fault) => say_find_fault(stage, fault),
    }
}

// Says whether a vault allows the last name of a path.
fn call_allows(stage: &mut Stage, vault: &Vault, path: &PlainPath) {
    let Some(name) = path.names().last() else {
        return stage.stop(Stop::Line);
    };
    match vault.allows(name) {
        Ok(true) => stage.done("yes"),
        Ok(false) => stage.done("no"),
        Err(_) => stage.stop(Stop::NoMemory),
    }
}

// Says what a content comes to, and the bytes that were written.
fn call_cat(stage: &mut Stage, vault: &Vault, path: &PlainPath, handed: &mut Handed) {
    let answer = cat(stage.alloc, &mut stage.folder, vault, path, &mut handed.out);
    let status = u8::from(answer.is_err());
    match answer {
        Ok(length) => stage.said.shows(&length),
        Err(fault) => cat_fault(&mut stage.said, fault),
    }
    stage.said.bytes(handed.out.sink.bytes(), MOST_SHOWN);
    stage.ended(status);
}

/// Plays `load AT PASS`, `find VAULT PATH`, `enter VAULT PATH`, `items VAULT PATH`, `items_in VAULT FOLDER PATH`, `allows VAULT PATH` and
/// `cat VAULT PATH`.
pub fn call_reading(stage: &mut Stage, verb: &str, words: &str, handed: &mut Handed) {
    if verb == "load" {
        return call_load(stage, words);
    }
    let (vault, words) = cut(words);
    let Some(vault) = vault_named(stage, vault) else {
        return;
    };
    if verb == "items_in" {
        return call_items_in(stage, &vault, words);
    }
    let path = plain_path(stage, words);
    read_in(stage, verb, &vault, &path, handed);
}

fn read_in(stage: &mut Stage, verb: &str, vault: &Vault, path: &PlainPath, handed: &mut Handed) {
    match verb {
        "find" => call_find(stage, vault, path),
        "enter" => call_enter(stage, vault, path),
        "items" => call_list(stage, vault, path),
        "allows" => call_allows(stage, vault, path),
        _ => call_cat(stage, vault, path, handed),
    }
}
