// A signed token (RFC 7515, section 7.1) whose first two parts are JSON objects.

ghost use Rattle.std.specs.Prelude.{◌≡◌, ◌<◌, length, IfOk, IfSome, option_map};
ghost use Rattle.std.specs.List.{position_from};
ghost use Rattle.cryptomator_conf.specs.Jwt.{is_blank, is_dot, at_dot, trimmed, parts_of, signed_part, jwt_in, object_in};
ghost use Rattle.cryptomator_conf.specs.Views.{jwt_view, parts_view};
ghost use Rattle.serde_json.specs.View.{view};

use json_fields::{Alphabet, decode, json_object};
use serde_json::Value;
use std::alloc::{AllocError, Global};

// The parts of a token, as they stand.
#[derive(Clone, Copy)]
struct Parts<'b> {
    header: &'b [u8],
    payload: &'b [u8],
    signature: &'b [u8],
}

// A token, read.
#[derive(Drop)]
pub(crate) struct Jwt {
    pub header: Value,
    pub payload: Value,
    pub signed: Vec<u8>,
    pub signature: Vec<u8>,
}

// The token that some bytes are, but for newlines and blanks at their end, or `None` where they are none.
#[tactic(auto, unfolding(crate::specs::Jwt::jwt_in))]
pub(crate) fn jwt_in(alloc: Global, bytes: &[u8]) -> Result<Option<Jwt>, AllocError>
    ensures { IfOk result (λ jwt. option_map jwt_view jwt ≡ jwt_in bytes.now) }
{
    let Some(parts) = parts_of(trimmed(bytes)) else {
        return Ok(None);
    };
    let Some(header) = object_in(alloc, parts.header)? else {
        return Ok(None);
    };
    let Some(payload) = object_in(alloc, parts.payload)? else {
        return Ok(None);
    };
    let Some(signature) = decode(alloc, Alphabet::UrlSafe, parts.signature)? else {
        return Ok(None);
    };
    Ok(Some(Jwt {
        header,
        payload,
        signed: signed_part(alloc, &parts)?,
        signature,
    }))
}

// The JSON object whose base64url some bytes are.
fn object_in(alloc: Global, part: &[u8]) -> Result<Option<Value>, AllocError>
    ensures { IfOk result (λ object. option_map view object ≡ object_in part.now) }
{
    match decode(alloc, Alphabet::UrlSafe, part)? {
        Some(bytes) => json_object(alloc, bytes.as_slice()),
        None => Ok(None),
    }
}

// The bytes without the newlines and blanks at their end.
fn trimmed(bytes: &[u8]) -> &[u8]
    ensures { result.now ≡ trimmed bytes.now }
{
    let mut rest = bytes;
    while let Some((last, front)) = rest.split_last() {
        if !is_blank(*last) {
            break;
        }
        rest = front;
    }
    rest
}

fn is_blank(byte: u8) -> bool
    ensures { result ≡ is_blank byte }
{
    byte == b'\n' || byte == b'\r' || byte == b' '
}

// The three parts.
fn parts_of(bytes: &[u8]) -> Option<Parts>
    ensures { option_map parts_view result ≡ parts_of bytes.now }
{
    let (header, behind) = at_dot(bytes)?;
    let (payload, signature) = at_dot(behind)?;
    Some(Parts {
        header,
        payload,
        signature,
    })
}

// The bytes before the first dot, and those behind it.
fn at_dot(bytes: &[u8]) -> Option<(&[u8], &[u8])>
    ensures { option_map (λ p. (p.0.now, p.1.now)) result ≡ at_dot bytes.now }
{
    let place = dot_in(bytes)?;
    Some((&bytes[..place], &bytes[place + 1..]))
}

// The place of the first dot.
fn dot_in(bytes: &[u8]) -> Option<usize>
    ensures value { result ≡ position_from is_dot 0 bytes.now }
    ensures within { IfSome result (λ place. place < length bytes.now) }
{
    bytes.iter().position(|byte| *byte == b'.')
}

// The bytes that are signed.
fn signed_part(alloc: Global, parts: &Parts) -> Result<Vec<u8>, AllocError>
    ensures { IfOk result (λ signed. signed.items ≡ signed_part (parts_view parts.now)) }
{
    let mut signed = Vec::from_slice(alloc, parts.header)?;
    signed.push(b'.')?;
    signed.extend_from_slice(parts.payload)?;
    Ok(signed)
}
