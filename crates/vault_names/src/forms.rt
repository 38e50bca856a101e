//! The forms of the names of long entries, by which one is known that no name is stored under.
ghost use Rattle.std.specs.Prelude.{◌≡◌};
ghost use Rattle.std.specs.List.{list_all};
ghost use Rattle.json_fields.specs.Base64.{is_base64url};
ghost use Rattle.vault_names.specs.Cryptomator.{is_cm_long_name};
ghost use Rattle.vault_names.specs.Gocryptfs.{is_long_name};

/// Whether a name has the form of a long entry of gocryptfs: `gocryptfs.longname.`, and then 43 characters of base64url.
pub fn go_is_long(name: &str) -> bool
    ensures { result ≡ is_long_name name.now }
{
    let name = name.as_bytes();
    if name.len() != 62 {
        return false;
    }
    let (start, digest) = name.split_at(19);
    start == b"gocryptfs.longname.".as_slice() && all_base64url(digest)
}

/// Whether a name has the form of a long entry of Cryptomator: 27 characters of base64url, `=`, and then `.c9s`.
pub fn cm_is_long(name: &str) -> bool
    ensures { result ≡ is_cm_long_name name.now }
{
    let name = name.as_bytes();
    if name.len() != 32 {
        return false;
    }
    let (digest, end) = name.split_at(27);
    all_base64url(digest) && end == b"=.c9s".as_slice()
}

fn all_base64url(text: &[u8]) -> bool
    ensures { result ≡ list_all is_base64url text.now }
{
    text.iter().all(|byte| is_base64url(*byte))
}

fn is_base64url(byte: u8) -> bool
    ensures { result ≡ is_base64url byte }
{
    byte.is_ascii_alphanumeric() || byte == b'-' || byte == b'_'
}
