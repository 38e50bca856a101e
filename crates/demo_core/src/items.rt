//! The items of the demonstration: their paths, and the sizes and bytes of its files.
ghost use Rattle.std.specs.Prelude.{◌≡◌, ◌<◌, ◌≤◌, ◌+◌, ◌*◌, ◌^◌, ◌++◌, IfOk, IsTrue, map, length};
ghost use Rattle.plain_tree.specs.Names.{is_name};
ghost use Rattle.demo_core.specs.Demonstration.{byte_of, bytes_from, counting, digits, directory_name, directory_path, file_name, is_directory, path_of, size_of, totals_of};

use plain_tree::{Name, PlainPath};
use std::alloc::{AllocError, Global};

// The letters that make a name long.
const LONG: &[u8] = &[b'x'; 180];

/// Whether the item of this number is a directory.
pub fn is_directory(number: u32) -> bool
    ensures { result ≡ is_directory number }
{
    number % 10 == 0
}

/// The path of the item of this number.
pub fn path_of(alloc: Global, number: u32) -> Result<PlainPath, AllocError>
    requires { number < 10000 }
    ensures { IfOk result (λ path. path ≡ path_of number) }
{
    let directory = directory_path(alloc, number / 10)?;
    if is_directory(number) {
        return Ok(directory);
    }
    directory.child(&file_name(alloc, number)?)
}

// The path of a directory, by how many were made before it.
fn directory_path(alloc: Global, count: u32) -> Result<PlainPath, AllocError>
    ensures { IfOk result (λ path. path ≡ directory_path count) }
{
    let name = directory_name(alloc, count)?;
    if count % 4 == 0 {
        let root = PlainPath::root(alloc);
        return root.child(&name);
    }
    let above = directory_path(alloc, count - 1)?;
    above.child(&name)
}

fn directory_name(alloc: Global, count: u32) -> Result<Name, AllocError>
    ensures { IfOk result (λ name. name ≡ directory_name count) }
{
    Ok(name_of(numbered(alloc, b"dir", 4, count)?))
}

fn file_name(alloc: Global, number: u32) -> Result<Name, AllocError>
    ensures { IfOk result (λ name. name ≡ file_name number) }
{
    let mut bytes = numbered(alloc, b"file", 6, number)?;
    if number % 25 != 7 {
        return Ok(name_of(bytes));
    }
    bytes.extend_from_slice(LONG)?;
    Ok(name_of(bytes))
}

// A word, and behind it so many digits of a number.
fn numbered(alloc: Global, word: &[u8], count: usize, n: u32) -> Result<Vec<u8>, AllocError>
    ensures { IfOk result (λ bytes. bytes.items ≡ word.now ++ digits count n) }
{
    let mut bytes = Vec::from_slice(alloc, word)?;
    bytes.extend_from_slice(digits(alloc, count, n)?.as_slice())?;
    Ok(bytes)
}

// The name of bytes that are one.
fn name_of(bytes: Vec<u8>) -> Name
    requires { IsTrue (is_name bytes.items) }
    ensures { result ≡ bytes.items }
{
    match Name::from_vec(bytes) {
        Some(name) => name,
        None => unreachable!(),
    }
}

// So many decimal digits of a number, the last ones.
fn digits(alloc: Global, count: usize, n: u32) -> Result<Vec<u8>, AllocError>
    ensures { IfOk result (λ bytes. bytes.items ≡ digits count n) }
{
    if count == 0 {
        return Ok(Vec::new(alloc));
    }
    let mut bytes = digits(alloc, count - 1, n / 10)?;
    bytes.push(b'0' + (n % 10) as u8)?;
    Ok(bytes)
}

/// The size of the file of this number.
pub fn size_of(seed: u64, number: u32) -> u32
    ensures size { result ≡ size_of seed number }
    ensures limit { result ≤ 70000 }
{
    if number % 50 == 49 {
        70_000
    } else if number % 50 == 24 {
        0
    } else {
        331 * (number % 40) + (seed % 256) as u32
    }
}

/// The byte at a place of the file of this number.
pub fn byte_of(seed: u64, number: u32, place: u32) -> u8
    ensures { result ≡ byte_of seed number place }
{
    let place = place as u64;
    ((seed % 256 + 31 * number as u64 + 7 * place + place / 251) % 256) as u8
}

/// Fills `out` with the bytes of the file of this number, from a place on.
pub fn fill(out: &mut [u8], seed: u64, number: u32, place: u32)
    requires { place + length out.old ≤ 70000 }
    ensures { out.new ≡ bytes_from seed number place (length out.old) }
{
    for (k, byte) in out.iter_mut().enumerate() {
        *byte = byte_of(seed, number, place + k as u32);
    }
}

/// How many directories and files there are, and how many bytes the files have.
#[derive(Clone, Copy, PartialEq, Eq)]
pub struct Totals {
    pub directories: u32,
    pub files: u32,
    pub bytes: u64,
}

impl Totals {
    // With one item more.
    fn counting(self, seed: u64, number: u32) -> Totals
        requires number { number < 2 ^ 31 }
        requires directories { self.directories ≤ number }
        requires files { self.files ≤ number }
        requires bytes { self.bytes ≤ 70000 * number }
        ensures is { result ≡ counting seed number self }
        ensures directories { result.directories ≤ number + 1 }
        ensures files { result.files ≤ number + 1 }
        ensures bytes { result.bytes ≤ 70000 * (number + 1) }
    {
        if is_directory(number) {
            Totals {
                directories: self.directories + 1,
                ..self
            }
        } else {
            Totals {
                files: self.files + 1,
                bytes: self.bytes + size_of(seed, number) as u64,
                ..self
            }
        }
    }
}

/// The totals of so many items.
pub fn totals_of(seed: u64, count: u32) -> Totals
    requires { count < 2 ^ 31 }
    ensures { result ≡ totals_of seed count }
{
    let mut totals = Totals {
        directories: 0,
        files: 0,
        bytes: 0,
    };
    for number in 0..count {
        totals = totals.counting(seed, number);
    }
    totals
}
