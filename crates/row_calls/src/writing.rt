//! Calls of vault_write and content_writing.
use crate::faults::put_fault;
use crate::places::{PASSPHRASE, plain_path, vault_named};
use crate::staging::is_not_below;
use crate::work::entered;
use content_writing::{Buffers, write_content};
use cryptomator_conf::Combo;
use folder_model::FPath;
use kdf_suite::ScryptCost;
use plain_tree::PlainPath;
use row_playing::{Handed, Stage, Stop};
use row_words::cut;
use vault_read::{ContentReader, Vault};
use vault_write::{
    PutFault, SourceContent, VaultContent, init_cm, init_cm_combo, init_go, place_dir, place_file,
    put,
};
use work_folder::Work;

fn say_put(stage: &mut Stage, answer: Result<(), PutFault>) {
    match answer {
        Ok(()) => stage.done("done"),
        Err(fault) => {
            put_fault(&mut stage.said, fault);
            stage.ended(1);
        }
    }
}

/// Makes a vault at the smallest cost of scrypt, by way of a work folder.
pub fn init(stage: &mut Stage, verb: &str, work: &FPath, at: &FPath, handed: &mut Handed) {
    let Ok(cost) = ScryptCost::new(2, 1, 1) else {
        return stage.stop(Stop::Line);
    };
    let Some(work) = entered(stage, work) else {
        return;
    };
    if !is_not_below(work.at(), at) || !is_not_below(at, work.at()) {
        return stage.stop(Stop::Line);
    }
    let (alloc, folder, random) = (stage.alloc, &mut stage.folder, &mut handed.random);
    let answer = match verb {
        "init_go" => init_go(alloc, folder, &work, at, PASSPHRASE, &cost, random),
        "init_ctr" => {
            let combo = Combo::SivCtrMac;
            init_cm_combo(alloc, folder, &work, at, PASSPHRASE, &cost, combo, random)
        }
        _ => init_cm(alloc, folder, &work, at, PASSPHRASE, &cost, random),
    };
    say_put(stage, answer);
}

// Makes an item of a vault. The content of a file is what the input has left.
fn call_place(
    stage: &mut Stage,
    verb: &str,
    work: &Work,
    vault: &Vault,
    path: &PlainPath,
    handed: &mut Handed,
) {
    if !is_not_below(work.at(), vault.root()) || !is_not_below(vault.root(), work.at()) {
        return stage.stop(Stop::Line);
    }
    let (alloc, folder, random) = (stage.alloc, &mut stage.folder, &mut handed.random);
    let mut content = SourceContent::new(&mut handed.input);
    let answer = match verb {
        "place_dir" => place_dir(alloc, folder, work, vault, path, random),
        "place_file" => place_file(alloc, folder, work, vault, path, &mut content, random),
        _ => put(alloc, folder, work, vault, path, &mut content, random),
    };
    say_put(stage, answer);
}

// Makes an item: `WORK VAULT PATH`.
fn call_item(stage: &mut Stage, verb: &str, words: &str, handed: &mut Handed) {
    let (work, words) = cut(words);
    let (vault, path) = cut(words);
    let work = stage.path(work);
    let path = plain_path(stage, path);
    if let Some(vault) = vault_named(stage, vault) {
        if let Some(work) = entered(stage, &work) {
            call_place(stage, verb, &work, &vault, &path, handed);
        }
    }
}

// Writes what the input has left as a content file of a vault.
fn call_write(stage: &mut Stage, vault: &Vault, staged: &FPath, handed: &mut Handed) {
    let Ok(mut buffers) = Buffers::new(stage.alloc, vault.content_keys()) else {
        return stage.stop(Stop::NoMemory);
    };
    if staged.depth() == 0 {
        return stage.stop(Stop::Line);
    }
    let mut content = SourceContent::new(&mut handed.input);
    let (folder, random) = (&mut stage.folder, &mut handed.random);
    let keys = vault.content_keys();
    let answer = write_content(folder, staged, keys, &mut content, random, &mut buffers);
    say_put(stage, answer);
}

// Writes what a content file of a vault holds as another one.
fn call_copy(stage: &mut Stage, vault: &Vault, staged: &FPath, from: &FPath, handed: &mut Handed) {
    if staged.depth() == 0 || from.starts_with(staged) {
        return stage.stop(Stop::Line);
    }
    let Ok(mut buffers) = Buffers::new(stage.alloc, vault.content_keys()) else {
        return stage.stop(Stop::NoMemory);
    };
    let Ok(reader) = ContentReader::start(stage.alloc, vault, from) else {
        return stage.stop(Stop::NoMemory);
    };
    let mut content = VaultContent::new(stage.alloc, reader);
    let (folder, random) = (&mut stage.folder, &mut handed.random);
    let keys = vault.content_keys();
    let answer = write_content(folder, staged, keys, &mut content, random, &mut buffers);
    say_put(stage, answer);
}

// `write_content VAULT STAGED` and `copy_content VAULT STAGED FROM`.
fn call_content(stage: &mut Stage, verb: &str, words: &str, handed: &mut Handed) {
    let (vault, words) = cut(words);
    let (staged, from_word) = cut(words);
    let staged = stage.path(staged);
    let from = stage.path(from_word);
    let Some(vault) = vault_named(stage, vault) else {
        return;
    };
    if verb == "write_content" {
        stage.no_more(from_word);
        call_write(stage, &vault, &staged, handed);
    } else {
        call_copy(stage, &vault, &staged, &from, handed);
    }
}

/// Plays `init_go WORK AT`, `place_dir WORK VAULT PATH`, `write_content VAULT STAGED` and their like.
pub fn call_writing(stage: &mut Stage, verb: &str, words: &str, handed: &mut Handed) {
    match verb {
        "init_go" | "init_cm" | "init_ctr" => {
            let (work, at) = cut(words);
            let work = stage.path(work);
            let at = stage.path(at);
            init(stage, verb, &work, &at, handed);
        }
        "write_content" | "copy_content" => call_content(stage, verb, words, handed),
        _ => call_item(stage, verb, words, handed),
    }
}
