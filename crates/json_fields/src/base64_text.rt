//! Base64 (RFC 4648) in texts.

ghost use Rattle.std.specs.Prelude.{◌≡◌, IfOk, option_map};
ghost use Rattle.base64.specs.Engines.{standard, url_safe_no_pad};
ghost use Rattle.base64.specs.GeneralPurpose.{decoded_of};
ghost use Rattle.json_fields.specs.Base64.{decoded_by};

use base64::DecodeAllocError;
use base64::engine::general_purpose::{STANDARD, URL_SAFE_NO_PAD};
use std::alloc::{AllocError, Global};

/// An alphabet of base64, and whether texts are padded.
#[derive(Clone, Copy, PartialEq, Eq)]
pub enum Alphabet {
    /// The standard alphabet, with padding (section 4).
    Standard,
    /// The alphabet for URLs and names of files, without padding (section 5).
    UrlSafe,
}

/// The bytes that a text is the base64 of, or `None` where it is of none.
pub fn decode(alloc: Global, alphabet: Alphabet, text: &[u8]) -> Result<Option<Vec<u8>>, AllocError>
    ensures { IfOk result (λ bytes. option_map (λ b. b.items) bytes ≡ decoded_by alphabet text.now) }
{
    match alphabet {
        Alphabet::Standard => decode_padded(alloc, text),
        Alphabet::UrlSafe => decode_url_safe(alloc, text),
    }
}

#[tactic(auto, unfolding(base64::specs::GeneralPurpose::decoded_of))]
fn decode_padded(alloc: Global, text: &[u8]) -> Result<Option<Vec<u8>>, AllocError>
    ensures { IfOk result (λ bytes. option_map (λ b. b.items) bytes ≡ decoded_of standard text.now) }
{
    match STANDARD.decode(alloc, text) {
        Ok(bytes) => Ok(Some(bytes)),
        Err(DecodeAllocError::DecodeError(_)) => Ok(None),
        Err(DecodeAllocError::OutOfMemory) => Err(AllocError),
    }
}

#[tactic(auto, unfolding(base64::specs::GeneralPurpose::decoded_of))]
fn decode_url_safe(alloc: Global, text: &[u8]) -> Result<Option<Vec<u8>>, AllocError>
    ensures { IfOk result (λ bytes. option_map (λ b. b.items) bytes ≡ decoded_of url_safe_no_pad text.now) }
{
    match URL_SAFE_NO_PAD.decode(alloc, text) {
        Ok(bytes) => Ok(Some(bytes)),
        Err(DecodeAllocError::DecodeError(_)) => Ok(None),
        Err(DecodeAllocError::OutOfMemory) => Err(AllocError),
    }
}
