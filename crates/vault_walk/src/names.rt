//! The names that have a place in a vault, and what stands there otherwise.
ghost use Rattle.std.specs.Prelude.{◌≡◌, ◌∷◌, [], IfSome, IsTrue, is_some};
ghost use Rattle.std.specs.List.{list_all};
ghost use Rattle.folder_spec.specs.Path.{Part};
ghost use Rattle.folder_spec.specs.View.{Found, kind_found};
ghost use Rattle.vault_names.specs.Base32.{is_base32};
ghost use Rattle.vault_spec.specs.Cryptomator.{cm_role, cm_unnamed, file_role, folder_role, inner_role, is_base32_text, is_configuration, top};
ghost use Rattle.vault_spec.specs.Findings.{number_of};
ghost use Rattle.vault_spec.specs.RootFiles.{is_root_file};
ghost use Rattle.vault_spec.specs.Gocryptfs.{full_name};
ghost use Rattle.vault_read.specs.Items.{item_of};
ghost use Rattle.vault_read.specs.declared.vault.VaultKind.TheVariants.{Gocryptfs};
ghost use Rattle.vault_walk.specs.Names.{is_fixed_by, is_full_by, role_of, unnamed_by};

use folder_model::{FPath, Kind};
use vault_names::{cm_is_long, go_is_long};
use vault_read::{EntryItem, VaultKind};
use vault_spec::Finding;

const FULL_END: &str = ".name";

const LONG_START: &str = "gocryptfs.longname.";

/// What a path outside of the folders of entries is for.
#[derive(Clone, Copy, PartialEq, Eq)]
pub(crate) enum Role {
    /// Nothing that is looked at.
    Expected,
    /// A folder of content folders.
    Shelf,
    ContentFolder,
    /// It has no place there.
    Extra,
}

// The number of a finding.
pub(crate) fn number_of(finding: Finding) -> u8
    ensures { result ≡ number_of finding }
{
    match finding {
        Finding::BadStoredName => 1,
        Finding::NoDirKey => 2,
        Finding::LongNameLost => 3,
        Finding::OrphanLongName => 4,
        Finding::DirIdTwice => 5,
        Finding::NoFolder => 6,
        Finding::OrphanFolder => 7,
        Finding::SymlinkFound => 8,
        Finding::WrongKind => 9,
        Finding::ExtraEntry => 10,
        Finding::TwoKinds => 11,
        Finding::HeaderDamaged => 12,
        Finding::ChunkDamaged => 13,
        Finding::EmptyOrphan => 14,
    }
}

// Whether a regular file of this name at a vault's root belongs to the vault and is never read.
fn is_root_file(name: &str) -> bool
    ensures { result ≡ is_root_file name.now }
{
    name == "gocryptfs.conf.bak"
        || name.as_bytes().ends_with(b".rtf")
        || name.as_bytes().ends_with(b".bkup")
}

// Whether a file of this name belongs to the folder of entries of this many parts.
pub(crate) fn is_fixed(kind: VaultKind, folder: &FPath, name: &str) -> bool
    ensures { result ≡ is_fixed_by kind folder.now name.now }
{
    match kind {
        VaultKind::Gocryptfs => {
            name == "gocryptfs.diriv"
                || folder.depth() == 0 && (name == "gocryptfs.conf" || is_root_file(name))
        }
        VaultKind::Cryptomator => name == "dirid.c9r",
    }
}

// Whether a file of this name is the long-name file of another entry.
pub(crate) fn is_full(kind: VaultKind, name: &str) -> bool
    ensures { result ≡ is_full_by kind name.now }
{
    match kind {
        VaultKind::Gocryptfs => name.as_bytes().starts_with(LONG_START.as_bytes())
            && name.as_bytes().ends_with(FULL_END.as_bytes()),
        VaultKind::Cryptomator => false,
    }
}

// The entry whose long-name file has this name, if it is that of one.
pub(crate) fn entry_of_full(kind: VaultKind, name: &str) -> Option<&str>
    ensures entry { IfSome result (λ entry. (kind ≡ Gocryptfs) × (name.now ≡ full_name entry.now)) }
    ensures full { is_some result ≡ is_full_by kind name.now }
{
    match kind {
        VaultKind::Gocryptfs => {
            if is_full(kind, name) {
                name.strip_suffix(FULL_END)
            } else {
                None
            }
        }
        VaultKind::Cryptomator => None,
    }
}

// The finding of an entry that is stored under no name.
pub(crate) fn unnamed(vault: VaultKind, name: &str, kind: Kind) -> Finding
    ensures { (there : Found) → kind ≡ kind_found there → result ≡ unnamed_by vault name.now there }
{
    match vault {
        VaultKind::Gocryptfs => {
            if go_is_long(name) {
                Finding::LongNameLost
            } else {
                Finding::BadStoredName
            }
        }
        VaultKind::Cryptomator => cm_unnamed(name, kind),
    }
}

fn cm_unnamed(name: &str, kind: Kind) -> Finding
    ensures { (there : Found) → kind ≡ kind_found there → result ≡ cm_unnamed name.now there }
{
    if !cm_is_long(name) {
        return Finding::BadStoredName;
    }
    match kind {
        Kind::Dir => Finding::LongNameLost,
        _ => Finding::WrongKind,
    }
}

// What a file is for, by whether one of its name belongs.
fn file_role(belongs: bool, kind: Kind) -> Role
    ensures { (there : Found) → kind ≡ kind_found there → role_of result ≡ file_role belongs there }
{
    match kind {
        Kind::Missing => Role::Expected,
        Kind::File => { if belongs { Role::Expected } else { Role::Extra } }
        _ => Role::Extra,
    }
}

// What a folder is for, by whether one of its name is this.
fn folder_role(named: bool, role: Role, kind: Kind) -> Role
    ensures { (there : Found) → kind ≡ kind_found there → role_of result ≡ folder_role named (role_of role) there }
{
    match kind {
        Kind::Missing => Role::Expected,
        Kind::Dir => { if named { role } else { Role::Extra } }
        _ => Role::Extra,
    }
}

fn is_configuration(name: &str) -> bool
    ensures { result ≡ is_configuration name.now }
{
    name == "vault.cryptomator" || name == "masterkey.cryptomator"
}

fn is_base32(byte: u8) -> bool
    ensures { result ≡ is_base32 byte }
{
    byte >= b'A' && byte <= b'Z' || byte >= b'2' && byte <= b'7'
}

fn all_base32(name: &str) -> bool
    ensures { result ≡ list_all is_base32 name.now }
{
    name.as_bytes().iter().all(|byte| is_base32(*byte))
}

fn is_base32_text(size: usize, name: &str) -> bool
    ensures { result ≡ is_base32_text size name.now }
{
    name.len() == size && all_base32(name)
}

/// The folder of content folders' folders at the root of a Cryptomator vault.
pub(crate) const TOP: &str = "d";

// What an entry of a Cryptomator vault's root is for.
pub(crate) fn root_role(name: &str, kind: Kind) -> Role
    ensures { (there : Found) → kind ≡ kind_found there → role_of result ≡ cm_role (name.now ∷ []) there }
{
    if name == TOP {
        folder_role(true, Role::Expected, kind)
    } else {
        file_role(is_configuration(name) || is_root_file(name), kind)
    }
}

// What an entry of the folder `d` is for.
pub(crate) fn top_role(name: &str, kind: Kind) -> Role
    ensures { (there : Found) → kind ≡ kind_found there → role_of result ≡ cm_role (top ∷ name.now ∷ []) there }
{
    folder_role(is_base32_text(2, name), Role::Shelf, kind)
}

// What an entry of a folder of content folders is for.
pub(crate) fn shelf_role(name: &str, kind: Kind) -> Role
    ensures { (there : Found) → kind ≡ kind_found there → (shelf : Part) → IsTrue (is_base32_text 2 shelf) → role_of result ≡ cm_role (top ∷ shelf ∷ name.now ∷ []) there }
{
    folder_role(is_base32_text(30, name), Role::ContentFolder, kind)
}

// What an entry in an item's own folder is for.
pub(crate) fn inner_role(long: bool, item: EntryItem, name: &str, kind: Kind) -> Role
    ensures { (there : Found) → kind ≡ kind_found there → role_of result ≡ inner_role long (item_of item) name.now there }
{
    match item {
        EntryItem::Directory => { file_role(name == "dir.c9r" || long && name == "name.c9s", kind) }
        EntryItem::EntryFile | EntryItem::ContentFile => {
            file_role(long && (name == "contents.c9r" || name == "name.c9s"), kind)
        }
        _ => Role::Expected,
    }
}
