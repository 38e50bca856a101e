//! Names of the plain tree.
ghost use Rattle.std.specs.Prelude.{◌≡◌, ◌↔◌, IsTrue, IsFalse, IsErrOf, IfOk, Some, None, string_bytes, refl, if◌then◌else◌};
ghost use Rattle.std.specs.List.{list_all};
ghost use Rattle.std.specs.Cmp.{partial_equiv_from_equiv};
ghost use Rattle.std.specs.Cmp.Lexicographic.{nat_list_eq_equiv, nat_list_cmp_total, texts_ties, texts_po};
ghost use Rattle.plain_tree.specs.Names.{is_name_byte, is_dots, is_name, IsNfc};
ghost use Rattle.plain_tree.specs.Order.{name_cmp, name_eq};
ghost use Rattle.plain_tree.specs.Shown.{shown};

use crate::shown::shown_text;
use std::alloc::{AllocError, Global};
use std::cmp::Ordering;
use std::marker::Model;
use std::str;
use unicode_normalization::is_nfc;

/// The greatest length of a name in bytes.
pub const MAX_NAME_SIZE: usize = 255;

/// A name of 1 to 255 bytes, with no `/` and no zero byte, that isn't `.` or `..`. It need not be
/// text. Contracts see it as its bytes. Names are ordered by their bytes.
#[derive(Drop)]
pub struct Name {
    bytes: Vec<u8>,
}

impl Model for Name {
    ghost use Rattle.std.specs.Prelude.{ℕ, List, IsTrue};
    ghost use Rattle.plain_tree.specs.Names.{is_name};

    ghost Value = { List ℕ };

    ghost view = { λ name. name.bytes.items };

    ghost invariant = { λ name. IsTrue (is_name name.bytes.items) };
}

/// Why no name was made.
#[derive(Clone, Copy, PartialEq, Eq)]
pub enum NameNewFault {
    /// The bytes are no name.
    BadName,
    /// Memory was refused.
    NoMemory,
}

impl From<AllocError> for NameNewFault {
    ghost use Rattle.std.specs.Prelude.{◌≡◌};
    ghost use Rattle.plain_tree.specs.declared.name.NameNewFault.TheVariants.{NoMemory};

    ghost from_gives = { λ _ fault. fault ≡ NoMemory };

    fn from(_error: AllocError) -> NameNewFault {
        NameNewFault::NoMemory
    }
}

impl Name {
    /// The name of these bytes.
    pub fn new(alloc: Global, bytes: &[u8]) -> Result<Name, NameNewFault>
        ensures value { IfOk result (λ name. name ≡ bytes.now) }
        ensures refused { IsErrOf result NameNewFault.BadName ↔ IsFalse (is_name bytes.now) }
    {
        if !is_valid(bytes) {
            return Err(NameNewFault::BadName);
        }
        Ok(Name {
            bytes: Vec::from_slice(alloc, bytes)?,
        })
    }

    /// The name of these bytes, or `None` where they are no name. It takes no memory.
    pub fn from_vec(bytes: Vec<u8>) -> Option<Name>
        ensures { result ≡ (if is_name bytes.items then Some bytes.items else None) }
    {
        if is_valid(bytes.as_slice()) {
            Some(Name { bytes })
        } else {
            None
        }
    }

    /// Its bytes.
    pub fn bytes(&self) -> &[u8]
        ensures value { result.now ≡ self.now }
        ensures named { IsTrue (is_name self.now) }
    {
        self.bytes.as_slice()
    }

    /// An equal name.
    pub fn copy(&self) -> Result<Name, AllocError>
        ensures named { IsTrue (is_name self.now) }
        ensures value { IfOk result (λ name. name ≡ self.now) }
    {
        Ok(Name {
            bytes: Vec::from_slice(*self.bytes.allocator(), self.bytes.as_slice())?,
        })
    }

    /// Whether the name is UTF-8 and in Unicode's normalization form C.
    pub fn is_nfc(&self) -> Result<bool, AllocError>
        ensures { IfOk result (λ yes. IsTrue yes ↔ IsNfc self.now) }
    {
        match str::from_utf8(self.bytes.as_slice()) {
            Ok(text) => is_nfc(*self.bytes.allocator(), text),
            Err(_) => Ok(false),
        }
    }

    /// The shown form of the name.
    pub fn shown(&self) -> Result<String, AllocError>
        ensures { IfOk result (λ text. string_bytes text ≡ shown self.now) }
    {
        shown_text(*self.bytes.allocator(), self.bytes.as_slice())
    }
}

// Whether the bytes are a name.
#[tactic(auto, unfolding(crate::specs::Names::is_name))]
fn is_valid(bytes: &[u8]) -> bool
    ensures { result ≡ is_name bytes.now }
{
    0 < bytes.len() && bytes.len() <= MAX_NAME_SIZE && has_name_bytes(bytes) && !is_dots(bytes)
}

fn has_name_bytes(bytes: &[u8]) -> bool
    ensures { result ≡ list_all is_name_byte bytes.now }
{
    bytes.iter().all(|byte| is_name_byte(*byte))
}

fn is_dots(bytes: &[u8]) -> bool
    ensures { result ≡ is_dots bytes.now }
{
    bytes == b".".as_slice() || bytes == b"..".as_slice()
}

fn is_name_byte(byte: u8) -> bool
    ensures { result ≡ is_name_byte byte }
{
    byte != 0 && byte != b'/'
}

impl PartialEq for Name {
    ghost eq = { name_eq };

    ghost laws = { partial_equiv_from_equiv nat_list_eq_equiv };

    fn eq(&self, other: &Name) -> bool {
        self.bytes.as_slice() == other.bytes.as_slice()
    }
}

impl Eq for Name {
    ghost laws = { nat_list_eq_equiv };
}

impl PartialOrd for Name {
    ghost partial_cmp = { λ x y. Some (name_cmp x y) };

    ghost laws = { texts_po };

    fn partial_cmp(&self, other: &Name) -> Option<Ordering> {
        Some(self.cmp(other))
    }
}

impl Ord for Name {
    ghost cmp = { name_cmp };

    ghost total = { nat_list_cmp_total };

    ghost matches_partial_cmp = { λ x y. refl };

    ghost matches_eq = { texts_ties };

    fn cmp(&self, other: &Name) -> Ordering {
        self.bytes.as_slice().cmp(other.bytes.as_slice())
    }
}
