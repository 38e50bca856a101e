//! Calls of vault_values, gocrypt_conf and cryptomator_conf.

ghost use Rattle.std.specs.Prelude.{◌<◌};

use crate::answer::Answer;
use crate::arguments::Arguments;
use crate::keys::{cost, cost_shown};
use base64::engine::general_purpose::{STANDARD, URL_SAFE_NO_PAD};
use cryptomator_conf::{
    CmDraw, CmFiles, Combo, MasterFile, check_signature, make_combo, read_master, read_vault,
};
use gocrypt_conf::{GoConf, GoDraw};
use kdf_suite::hmac256;
use std::alloc::{AllocError, Global};
use vault_values::{CmKeys, id_text};

/// Makes a call of this module, and says whether there is one of this name.
pub fn answer(name: &str, args: &mut Arguments, answer: &mut Answer) -> bool {
    match name {
        "go-conf" => go_read(args.bytes(0), answer),
        "go-make" => go_make(args, answer),
        "go-cost" | "go-salt" | "go-unlock" | "go-reseal" => go_answer(name, args, answer),
        "go-conf-with"
        | "cm-master-with"
        | "cm-header-with"
        | "cm-payload-with"
        | "cm-signature-with" => changed_answer(name, args, answer),
        _ => return cm_answer(name, args, answer),
    }
    true
}

// Makes a call on a text of which a part is replaced.
fn changed_answer(name: &str, args: &Arguments, answer: &mut Answer) {
    let (whole, place) = match name {
        "go-conf-with" | "cm-master-with" => (args.text(0), 1),
        "cm-header-with" => (args.text(0), 2),
        "cm-payload-with" => (args.text(1), 2),
        _ => (args.text(2), 3),
    };
    let changed = changed(whole, args, place, answer);
    let bytes = changed.as_bytes();
    match name {
        "go-conf-with" => go_read(bytes, answer),
        "cm-master-with" => master_read(bytes, answer),
        "cm-header-with" => token_read(bytes, args.bytes(1), answer),
        "cm-payload-with" => token_read(args.bytes(0), bytes, answer),
        _ => signature(bytes, args, 0, answer),
    }
}

// A text with the first place of one part of it replaced: two arguments from a place on write the part and what it becomes.
fn changed(whole: &str, args: &Arguments, place: usize, answer: &mut Answer) -> String {
    let alloc = answer.alloc();
    let (old, new) = (args.text(place), args.text(place.saturating_add(1)));
    match whole.split_once(old) {
        Some((before, after)) if old != new => match format!(in alloc; "{before}{new}{after}") {
            Ok(text) => return text,
            Err(_) => answer.lacks(),
        },
        _ => args.refuse("no part that can be replaced"),
    }
    String::new(alloc)
}

fn go_read(bytes: &[u8], answer: &mut Answer) {
    let fault = gocrypt_conf::read(answer.alloc(), bytes).err();
    answer.read(fault);
}

// What a call on a configuration that can be read answers.
fn go_answer(name: &str, args: &Arguments, answer: &mut Answer) {
    let Some(conf) = gocrypt_conf::read(answer.alloc(), args.bytes(0)).ok() else {
        return args.refuse("no configuration");
    };
    match name {
        "go-cost" => cost_shown(&conf.cost, answer),
        "go-salt" => go_salt(conf, answer),
        "go-reseal" => go_reseal(&conf, args, answer),
        _ => go_unlock(&conf, args.bytes(1), answer),
    }
}

// The salt, whose vector is as long.
fn go_salt(conf: GoConf, answer: &mut Answer) {
    let GoConf { salt, .. } = conf;
    answer.bytes(salt.as_slice());
    let size = salt.as_slice().len();
    answer.unless(salt.into_vec().len() == size, "another vector");
}

fn go_unlock(conf: &GoConf, pass: &[u8], answer: &mut Answer) {
    match gocrypt_conf::unlock(answer.alloc(), conf, pass) {
        Ok(keys) => {
            answer.bytes(&keys.content);
            answer.bytes(&keys.names);
        }
        Err(gocrypt_conf::UnlockFault::WrongPass) => answer.word("wrong passphrase"),
        Err(gocrypt_conf::UnlockFault::NoMemory) => answer.lacks(),
    }
}

// The text for another passphrase, with a cost, a salt and a nonce.
fn go_reseal(conf: &GoConf, args: &Arguments, answer: &mut Answer) {
    let Some(cost) = cost(args, 3) else {
        return args.refuse("no cost");
    };
    let (alloc, pass, new_pass) = (answer.alloc(), args.bytes(1), args.bytes(2));
    let (salt, nonce): ([u8; 32], [u8; 16]) = (args.array(6), args.array(7));
    match gocrypt_conf::reseal(alloc, conf, pass, new_pass, &cost, &salt, &nonce) {
        Ok(text) => answer.bytes(text.as_slice()),
        Err(gocrypt_conf::UnlockFault::WrongPass) => answer.word("wrong passphrase"),
        Err(gocrypt_conf::UnlockFault::NoMemory) => answer.lacks(),
    }
}

fn go_make(args: &Arguments, answer: &mut Answer) {
    let drawn = GoDraw {
        master: args.array(4),
        salt: args.array(5),
        nonce: args.array(6),
    };
    let Some(cost) = cost(args, 1) else {
        return args.refuse("no cost");
    };
    match gocrypt_conf::make(answer.alloc(), args.bytes(0), &cost, &drawn) {
        Ok(made) => answer.bytes(made.as_slice()),
        Err(_) => answer.lacks(),
    }
}

// Makes a call of cryptomator_conf.
fn cm_answer(name: &str, args: &Arguments, answer: &mut Answer) -> bool {
    match name {
        "cm-vault" => vault_read(args.bytes(0), answer),
        "cm-unlock" | "cm-rewrap" => cm_unlock(name, args, answer),
        "cm-signature" => signature(args.bytes(2), args, 0, answer),
        "cm-signature-before" => signature_before(args, answer),
        "cm-make-master" => made(args, answer, true),
        "cm-make-vault" => made(args, answer, false),
        "cm-make-ctrmac" => made_ctrmac(args, answer),
        "cm-version-tag" => version_tag(args, answer),
        "cm-id" => answer.made(id_text(answer.alloc(), &args.array(0))),
        _ => return false,
    }
    true
}

fn master_read(bytes: &[u8], answer: &mut Answer) {
    let fault = read_master(answer.alloc(), bytes).err();
    answer.read(fault);
}

fn vault_read(bytes: &[u8], answer: &mut Answer) {
    let fault = read_vault(answer.alloc(), bytes).err();
    answer.read(fault);
}

// A token of two objects, with a signature of one byte.
fn token(alloc: Global, header: &[u8], payload: &[u8]) -> Result<String, AllocError> {
    let header = URL_SAFE_NO_PAD.encode(alloc, header)?;
    let payload = URL_SAFE_NO_PAD.encode(alloc, payload)?;
    format!(in alloc; "{header}.{payload}.AA")
}

fn token_read(header: &[u8], payload: &[u8], answer: &mut Answer) {
    match token(answer.alloc(), header, payload) {
        Ok(token) => vault_read(token.as_bytes(), answer),
        Err(_) => answer.lacks(),
    }
}

/// The keys that two arguments write, from this place on.
pub fn keys(args: &Arguments, place: usize) -> CmKeys
    requires { place < 100 }
{
    CmKeys {
        enc: args.array(place),
        mac: args.array(place + 1),
    }
}

fn cm_unlock(name: &str, args: &Arguments, answer: &mut Answer) {
    match read_master(answer.alloc(), args.bytes(0)).ok() {
        Some(file) if name == "cm-rewrap" => cm_rewrapped(&file, args, answer),
        Some(file) => cm_unlocked(&file, args.bytes(1), answer),
        None => args.refuse("no masterkey.cryptomator"),
    }
}

fn cm_unlocked(file: &MasterFile, pass: &[u8], answer: &mut Answer) {
    match cryptomator_conf::unlock(answer.alloc(), file, pass) {
        Ok(keys) => {
            answer.bytes(&keys.enc);
            answer.bytes(&keys.mac);
        }
        Err(cryptomator_conf::UnlockFault::WrongPass) => answer.word("wrong passphrase"),
        Err(cryptomator_conf::UnlockFault::NoMemory) => answer.lacks(),
    }
}

// The text for another passphrase, with a cost and a salt.
fn cm_rewrapped(file: &MasterFile, args: &Arguments, answer: &mut Answer) {
    let Some(cost) = cost(args, 3) else {
        return args.refuse("no cost");
    };
    let (alloc, pass, new_pass) = (answer.alloc(), args.bytes(1), args.bytes(2));
    match cryptomator_conf::rewrap(alloc, file, pass, new_pass, &cost, &args.array(6)) {
        Ok(text) => answer.bytes(text.as_slice()),
        Err(cryptomator_conf::UnlockFault::WrongPass) => answer.word("wrong passphrase"),
        Err(cryptomator_conf::UnlockFault::NoMemory) => answer.lacks(),
    }
}

// The combination that a token names, where the signature is right.
fn signature(bytes: &[u8], args: &Arguments, place: usize, answer: &mut Answer)
    requires { place < 100 }
{
    let Some(file) = read_vault(answer.alloc(), bytes).ok() else {
        return args.refuse("no vault.cryptomator");
    };
    match check_signature(&file, &keys(args, place)) {
        Ok(()) => answer.word(file.combo.name()),
        Err(wrong) => answer.shows(&wrong),
    }
}

fn signature_before(args: &Arguments, answer: &mut Answer) {
    let followed = followed(args.bytes(3), args.bytes(0), answer);
    signature(followed.as_slice(), args, 1, answer);
}

// Some bytes, and others behind them.
fn followed(bytes: &[u8], more: &[u8], answer: &mut Answer) -> Vec<u8> {
    let mut all = Vec::new(answer.alloc());
    if all.extend_from_slice(bytes).is_err() || all.extend_from_slice(more).is_err() {
        answer.lacks();
    }
    all
}

fn drawn(args: &Arguments) -> CmDraw {
    CmDraw {
        enc: args.array(4),
        mac: args.array(5),
        salt: args.array(6),
        jti: args.array(7),
    }
}

// One of the two files that are made.
fn made(args: &Arguments, answer: &mut Answer, is_master: bool) {
    let Some(cost) = cost(args, 1) else {
        return args.refuse("no cost");
    };
    match cryptomator_conf::make(answer.alloc(), args.bytes(0), &cost, &drawn(args)) {
        Ok(CmFiles { master, .. }) if is_master => answer.bytes(master.as_slice()),
        Ok(CmFiles { vault, .. }) => answer.bytes(vault.as_slice()),
        Err(_) => answer.lacks(),
    }
}

// `vault.cryptomator` of a new vault with SIV_CTRMAC.
fn made_ctrmac(args: &Arguments, answer: &mut Answer) {
    let alloc = answer.alloc();
    let Some(cost) = cost(args, 1) else {
        return args.refuse("no cost");
    };
    match make_combo(alloc, args.bytes(0), &cost, Combo::SivCtrMac, &drawn(args)) {
        Ok(files) => answer.bytes(files.vault.as_slice()),
        Err(_) => answer.lacks(),
    }
}

// The base64 of the tag of a version, whose four bytes are given.
fn version_tag(args: &Arguments, answer: &mut Answer) {
    let tag = hmac256(args.bytes(0), args.bytes(1));
    answer.made(STANDARD.encode(answer.alloc(), &tag));
}
