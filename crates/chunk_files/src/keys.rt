ghost use Rattle.std.specs.Prelude.{◌≡◌, ◌↔◌, ◌<◌, ◌≤◌, ◌==◌, ◌&&◌, IsTrue, List, ℕ};
ghost use Rattle.chunk_files.specs.Format.{stored_size};
ghost use Rattle.chunk_files.specs.Keys.{Keys, cm_ctr_keys, cm_gcm_keys, format_by, full_size, go_keys};

use aes_lanes::{Key256, same_bytes};
use gcm_mode::Gcm;
use std::marker::Model;

/// How a vault's content files are laid out.
#[derive(Clone, Copy, PartialEq, Eq)]
pub enum Layout {
    /// gocryptfs, on-disk format 2, with GCM contents.
    Go,
    /// Cryptomator, vault format 8, with the cipher combination SIV_GCM.
    CmGcm,
    /// Cryptomator, vault format 8, with the cipher combination SIV_CTRMAC.
    CmCtr,
}

impl Layout {
    /// The number of plain bytes of a full chunk.
    pub fn full(&self) -> usize
        ensures { result ≡ full_size self.now }
    {
        match self {
            Layout::Go => 4_096,
            Layout::CmGcm | Layout::CmCtr => 32_768,
        }
    }

    // The number of bytes of a header.
    pub fn header_size(&self) -> usize
        ensures { (key mac : List ℕ) → result ≡ (format_by self.now key mac).header_size }
    {
        match self {
            Layout::Go => 18,
            Layout::CmGcm => 68,
            Layout::CmCtr => 88,
        }
    }

    // Whether no bytes stand for no content.
    pub fn empty_has_no_header(&self) -> bool
        ensures { (key mac : List ℕ) → result ≡ (format_by self.now key mac).empty_has_no_header }
    {
        match self {
            Layout::Go => true,
            Layout::CmGcm | Layout::CmCtr => false,
        }
    }

    // Whether so many bytes are a whole file without a header: no bytes, where these stand for no content.
    pub fn is_whole_file(&self, count: usize) -> bool
        ensures { (key mac : List ℕ) → result ≡ ((count == 0) && (format_by self.now key mac).empty_has_no_header) }
    {
        count == 0 && self.empty_has_no_header()
    }

    // The number of stored bytes of a full chunk.
    pub fn stored(&self) -> usize
        ensures { (key mac : List ℕ) → result ≡ stored_size (format_by self.now key mac) }
    {
        match self {
            Layout::Go => 4_128,
            Layout::CmGcm => 32_796,
            Layout::CmCtr => 32_816,
        }
    }
}

/// The keys of a vault's contents, with the layout that they belong to.
#[derive(Drop)]
pub struct ContentKeys {
    layout: Layout,
    key: [u8; 32],
    // The key of tags, where the layout has one.
    mac: [u8; 32],
}

impl Model for ContentKeys {
    ghost use Rattle.chunk_files.specs.Keys.{Keys, mac_by};

    ghost Value = { Keys };

    ghost view = { λ keys. record { layout = keys.layout; key = keys.key; mac = mac_by keys.layout keys.mac } };
}

impl ContentKeys {
    /// The content key of a gocryptfs vault.
    pub fn go(key: &[u8; 32]) -> ContentKeys
        ensures { result ≡ go_keys key.now }
    {
        ContentKeys {
            layout: Layout::Go,
            key: *key,
            mac: [0; 32],
        }
    }

    /// The encryption key of a Cryptomator vault with SIV_GCM.
    pub fn cm_gcm(enc: &[u8; 32]) -> ContentKeys
        ensures { result ≡ cm_gcm_keys enc.now }
    {
        ContentKeys {
            layout: Layout::CmGcm,
            key: *enc,
            mac: [0; 32],
        }
    }

    /// The encryption key and the MAC key of a Cryptomator vault with SIV_CTRMAC.
    pub fn cm_ctr(enc: &[u8; 32], mac: &[u8; 32]) -> ContentKeys
        ensures { result ≡ cm_ctr_keys enc.now mac.now }
    {
        ContentKeys {
            layout: Layout::CmCtr,
            key: *enc,
            mac: *mac,
        }
    }

    /// The layout that these keys belong to.
    pub fn layout(&self) -> Layout
        ensures { result ≡ self.now.layout }
    {
        self.layout
    }

    /// Whether these are the same keys, of the same layout.
    pub fn is_same(&self, other: &ContentKeys) -> bool
        ensures { IsTrue result ↔ (self.now ≡ other.now) }
    {
        let has_mac = self.layout == Layout::CmCtr;
        self.layout == other.layout
            && same_bytes(&self.key, &other.key)
            && (!has_mac || same_bytes(&self.mac, &other.mac))
    }

    // The vault's key, expanded.
    pub fn cipher(&self) -> Key256
        ensures { result ≡ self.now.key }
    {
        Key256::new(&self.key)
    }

    // GCM under the vault's key.
    pub fn gcm(&self) -> Gcm
        ensures { result ≡ self.now.key }
    {
        Gcm::new(self.cipher())
    }

    // The vault's key of tags.
    pub fn mac(&self) -> &[u8; 32]
        requires { self.now.layout ≡ Layout.CmCtr }
        ensures { result.now ≡ self.now.mac }
    {
        &self.mac
    }
}
