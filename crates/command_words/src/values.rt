//! What words write.
ghost use Rattle.std.specs.Prelude.{◌≡◌, IfOk, IfSome, drop};
ghost use Rattle.std.specs.Vec.Iter.{into_iter_items};
ghost use Rattle.folder_model.specs.Text.{IsParsed};
ghost use Rattle.plain_tree.specs.Reading.{read_path};
ghost use Rattle.command_words.specs.Commands.{first};
ghost use Rattle.command_words.specs.Values.{flag_value, folder_path, folder_value, format_of, format_value, key_of, key_value, number_value, plain_value, value_by};
ghost use Rattle.command_words.specs.Written.{IsWritten};

use crate::numbers::number_within;
use crate::rows::Kind;
use folder_model::{FPath, FPathFault};
use plain_tree::{PathFault, PlainPath};
use std::alloc::{AllocError, Global};
use std::vec::IntoIter;

/// The formats in which vaults are made.
#[derive(Clone, Copy, PartialEq, Eq, Drop)]
pub enum Format {
    Gocryptfs,
    /// Cryptomator's with SIV_GCM.
    Cryptomator,
    /// Cryptomator's with SIV_CTRMAC.
    CryptomatorCtrMac,
}

/// What a word writes.
#[derive(Drop)]
pub(crate) enum Value {
    Folder(FPath),
    Plain(PlainPath),
    Format(Format),
    Key([u8; 32]),
    Number(u64),
    /// Whether a flag is there.
    Flag(bool),
}

/// What a word writes, by its kind, or `None` where it doesn't write that.
pub(crate) fn value_of(alloc: Global, kind: Kind, word: &str) -> Result<Option<Value>, AllocError>
    ensures is { IfOk result (λ value. value ≡ value_by kind word.now) }
    ensures written { IfOk result (λ value. IfSome value (IsWritten kind)) }
{
    match kind {
        Kind::FolderPath => Ok(folder_path(alloc, word)?.map(Value::Folder)),
        Kind::PlainPath | Kind::PlainPathOrRoot => Ok(plain_path(alloc, word)?.map(Value::Plain)),
        Kind::Format => Ok(format_of(word).map(Value::Format)),
        Kind::Key => Ok(key_of(word).map(Value::Key)),
        Kind::Number(most) => Ok(number_within(word, most).map(Value::Number)),
    }
}

// The folder path that a word writes.
fn folder_path(alloc: Global, word: &str) -> Result<Option<FPath>, AllocError>
    ensures is { IfOk result (λ path. path ≡ folder_path word.now) }
    ensures written { IfOk result (λ path. IfSome path IsParsed) }
{
    let _utf8 = word.as_bytes();
    match FPath::parse(alloc, word) {
        Ok(path) => Ok(Some(path)),
        Err(FPathFault::BadPath) => Ok(None),
        Err(FPathFault::NoMemory) => Err(AllocError),
    }
}

// The plain path that a word writes.
fn plain_path(alloc: Global, word: &str) -> Result<Option<PlainPath>, AllocError>
    ensures { IfOk result (λ path. path ≡ read_path word.now) }
{
    match PlainPath::parse(alloc, word) {
        Ok(path) => Ok(Some(path)),
        Err(PathFault::BadPath) => Ok(None),
        Err(PathFault::NoMemory) => Err(AllocError),
    }
}

// The format that a word names.
fn format_of(word: &str) -> Option<Format>
    ensures { result ≡ format_of word.now }
{
    if word == "gocryptfs" {
        Some(Format::Gocryptfs)
    } else if word == "cryptomator" {
        Some(Format::Cryptomator)
    } else if word == "cryptomator-ctrmac" {
        Some(Format::CryptomatorCtrMac)
    } else {
        None
    }
}

// The 32 bytes that a content key's digits write.
fn key_of(text: &str) -> Option<[u8; 32]>
    ensures { result ≡ key_of text.now }
{
    let mut key = [0; 32];
    match hex::decode_to_slice(text, &mut key) {
        Ok(()) => Some(key),
        Err(_) => None,
    }
}

/// Takes the next value: the folder path that it is.
pub(crate) fn next_folder(values: &mut IntoIter<Value>) -> Option<FPath>
    ensures is { result ≡ folder_value (first (into_iter_items values.old)) }
    ensures rest { into_iter_items values.new ≡ drop 1 (into_iter_items values.old) }
{
    match values.next() {
        Some(Value::Folder(path)) => Some(path),
        _ => None,
    }
}

/// Takes the next value: the plain path that it is.
pub(crate) fn next_plain(values: &mut IntoIter<Value>) -> Option<PlainPath>
    ensures is { result ≡ plain_value (first (into_iter_items values.old)) }
    ensures rest { into_iter_items values.new ≡ drop 1 (into_iter_items values.old) }
{
    match values.next() {
        Some(Value::Plain(path)) => Some(path),
        _ => None,
    }
}

/// Takes the next value: the format that it is.
pub(crate) fn next_format(values: &mut IntoIter<Value>) -> Option<Format>
    ensures is { result ≡ format_value (first (into_iter_items values.old)) }
    ensures rest { into_iter_items values.new ≡ drop 1 (into_iter_items values.old) }
{
    match values.next() {
        Some(Value::Format(format)) => Some(format),
        _ => None,
    }
}

/// Takes the next value: the key that it is.
pub(crate) fn next_key(values: &mut IntoIter<Value>) -> Option<[u8; 32]>
    ensures is { result ≡ key_value (first (into_iter_items values.old)) }
    ensures rest { into_iter_items values.new ≡ drop 1 (into_iter_items values.old) }
{
    match values.next() {
        Some(Value::Key(key)) => Some(key),
        _ => None,
    }
}

/// Takes the next value: the number that it is.
pub(crate) fn next_number(values: &mut IntoIter<Value>) -> Option<u64>
    ensures is { result ≡ number_value (first (into_iter_items values.old)) }
    ensures rest { into_iter_items values.new ≡ drop 1 (into_iter_items values.old) }
{
    match values.next() {
        Some(Value::Number(number)) => Some(number),
        _ => None,
    }
}

/// Takes the next value: whether the flag is there.
pub(crate) fn next_flag(values: &mut IntoIter<Value>) -> Option<bool>
    ensures is { result ≡ flag_value (first (into_iter_items values.old)) }
    ensures rest { into_iter_items values.new ≡ drop 1 (into_iter_items values.old) }
{
    match values.next() {
        Some(Value::Flag(there)) => Some(there),
        _ => None,
    }
}
