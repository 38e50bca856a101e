//! Opening a vault for a command.
ghost use Rattle.std.specs.Prelude.{◌≡◌, ◌⊎◌, ◌≤◌, Ok, Err, IfErr, IfOk, IsTrue};
ghost use Rattle.folder_spec.specs.Seen.{IfSeen, under};
ghost use Rattle.port_model.specs.Counts.{CountRose};
ghost use Rattle.std.specs.List.{position_or_len};
ghost use Rattle.folder_spec.specs.Path.{child};
ghost use Rattle.open_for_reading.specs.Tests.{is_of_beginning, is_of_readying};
ghost use Rattle.open_for_reading.specs.Opening.{IsPhrase, Opens, is_newline, passphrase_in};
ghost use Rattle.open_for_reading.specs.Refusing.{RefusesLoad, RefusesOpening, RefusesPass, RefusesVault};
ghost use Rattle.open_for_reading.specs.Shown.{is_of_opening};
ghost use Rattle.vault_spec.specs.Vault.{Loads};

use command_answers::{Answer, Limit, Named, Refusal};
use folder_model::{FPath, Folder};
use std::alloc::Global;
use vault_read::{LoadFault, SmallFile, Vault, read_small};
use vault_values::Bytes;

// The most bytes of a passphrase's file.
const MAX_SIZE: usize = 2_048;

/// The vault that a root and the passphrase in a file are.
pub fn open<F: Folder>(
    alloc: Global,
    folder: &mut F,
    root: &FPath,
    pass: &FPath,
) -> Result<Vault, Answer>
    ensures told { F.told folder.new ≡ F.told folder.old }
    ensures root { IfOk result (λ vault. vault.root ≡ root.now) }
    ensures opened { IfOk result (λ vault. IfSeen (F.told folder.old) (λ v. Opens v root.now pass.now vault.vault)) }
    ensures refused { IfErr result (λ answer. IfSeen (F.told folder.old) (λ v. RefusesOpening v root.now pass.now answer)) }
    ensures grows { F.faults folder.old ≤ F.faults folder.new }
    ensures failed { result ≡ Err Answer.FolderFault → CountRose (F.faults folder.old) (F.faults folder.new) }
    ensures own { IfErr result (λ answer. IsTrue (is_of_opening answer)) }
{
    let phrase = read_pass(alloc, folder, pass)?;
    load(alloc, folder, root, phrase.as_slice())
}

/// The vault that a root and a passphrase are.
pub fn load<F: Folder>(
    alloc: Global,
    folder: &mut F,
    root: &FPath,
    phrase: &[u8],
) -> Result<Vault, Answer>
    ensures told { F.told folder.new ≡ F.told folder.old }
    ensures root { IfOk result (λ vault. vault.root ≡ root.now) }
    ensures opened { IfOk result (λ vault. IfSeen (F.told folder.old) (λ v. Loads (under root.now v) phrase.now (Ok vault.vault))) }
    ensures refused { IfErr result (λ answer. IfSeen (F.told folder.old) (λ v. RefusesVault v root.now phrase.now answer)) }
    ensures grows { F.faults folder.old ≤ F.faults folder.new }
    ensures failed { result ≡ Err Answer.FolderFault → CountRose (F.faults folder.old) (F.faults folder.new) }
    ensures own { IfErr result (λ answer. IsTrue (is_of_opening answer)) }
    ensures beginning { IfErr result (λ answer. IsTrue (is_of_beginning answer)) }
{
    match Vault::load(alloc, folder, root, phrase) {
        Ok(vault) => Ok(vault),
        Err(fault) => Err(answer_to_load(root, fault)),
    }
}

/// The passphrase in the file at a path.
pub fn read_pass<F: Folder>(alloc: Global, folder: &mut F, at: &FPath) -> Result<Bytes, Answer>
    ensures told { F.told folder.new ≡ F.told folder.old }
    ensures phrase { IfOk result (λ phrase. IfSeen (F.told folder.old) (λ v. IsPhrase (v at.now) phrase)) }
    ensures refused { IfErr result (λ answer. IfSeen (F.told folder.old) (λ v. RefusesPass at.now (v at.now) answer)) }
    ensures grows { F.faults folder.old ≤ F.faults folder.new }
    ensures failed { result ≡ Err Answer.FolderFault → CountRose (F.faults folder.old) (F.faults folder.new) }
    ensures own { IfErr result (λ answer. IsTrue (is_of_opening answer)) }
    ensures readying { IfErr result (λ answer. IsTrue (is_of_readying answer)) }
{
    match read_small(alloc, folder, at, MAX_SIZE)? {
        SmallFile::Missing => Err(Answer::NotFound(Named::Folder(at.copy()?))),
        SmallFile::Other => Err(Answer::WrongKind(Named::Folder(at.copy()?))),
        SmallFile::TooLarge => Err(Answer::Limit(Limit::PassFile)),
        SmallFile::Whole(bytes) => Ok(phrase_in(bytes)),
    }
}

// The bytes before the first newline, or all where there is none.
fn phrase_in(bytes: Bytes) -> Bytes
    ensures { result ≡ passphrase_in bytes }
{
    let mut phrase = bytes.into_vec();
    let end = line_end(phrase.as_slice());
    phrase.truncate(end);
    Bytes::new(phrase)
}

// How many bytes stand before the first newline.
fn line_end(bytes: &[u8]) -> usize
    ensures { result ≡ position_or_len is_newline bytes.now }
{
    let mut end = 0;
    while end < bytes.len() && bytes[end] != b'\n' {
        end += 1;
    }
    end
}

/// The answer to a vault that isn't opened.
pub fn answer_to_load(root: &FPath, fault: LoadFault) -> Answer
    ensures refuses { RefusesLoad root.now fault result }
    ensures failed { result ≡ Answer.FolderFault → fault ≡ LoadFault.Failed }
    ensures own { IsTrue (is_of_opening result) }
    ensures beginning { IsTrue (is_of_beginning result) }
{
    match fault {
        LoadFault::Missing(at) => Answer::NotFound(Named::Folder(at)),
        LoadFault::WrongKind(at) => Answer::WrongKind(Named::Folder(at)),
        LoadFault::TooLarge(at) => Answer::Limit(Limit::Length(at)),
        LoadFault::Go(fault) => refused(root, "gocryptfs.conf", Refusal::Gocryptfs(fault)),
        LoadFault::Cm(at, fault) => Answer::Refused(at, Refusal::Cryptomator(fault)),
        LoadFault::WrongPass => match root.copy() {
            Ok(root) => Answer::WrongPass(root),
            Err(_) => Answer::OutOfMemory,
        },
        LoadFault::BadSignature => refused(root, "vault.cryptomator", Refusal::Signature),
        LoadFault::Failed => Answer::FolderFault,
        LoadFault::NoMemory => Answer::OutOfMemory,
    }
}

// That this file at the root is refused.
fn refused(root: &FPath, name: &str, why: Refusal) -> Answer
    ensures { (result ≡ Answer.OutOfMemory) ⊎ (result ≡ Answer.Refused (child root.now name.now) why) }
{
    match root.child(name) {
        Ok(at) => Answer::Refused(at, why),
        Err(_) => Answer::OutOfMemory,
    }
}
