//! Bytes as answers show them.
ghost use Rattle.std.specs.Prelude.{◌≡◌, IfOk};
ghost use Rattle.std.specs.String.{string_bytes};
ghost use Rattle.hex.specs.Hex.{encode_lower};
ghost use Rattle.sha2.specs.Sha256.{sha256};

use sha2::{Digest, Sha256};
use std::alloc::{AllocError, Global};

// Adds a byte as texts of rows write it.
fn push_byte(text: &mut String, byte: u8) -> Result<(), AllocError> {
    match byte {
        b'\n' => text.push_str("\\n"),
        b'\t' => text.push_str("\\t"),
        b'\r' => text.push_str("\\r"),
        b'\\' => text.push_str("\\\\"),
        b' '..=b'~' => text.push(byte as char),
        _ => write!(text, "\\x{byte:02x}"),
    }
}

/// Adds bytes as a text of a row, without its mark at the front. Blanks stay blanks.
pub fn push_text(text: &mut String, bytes: &[u8]) -> Result<(), AllocError> {
    for byte in bytes {
        push_byte(text, *byte)?;
    }
    Ok(())
}

/// The SHA-256 of bytes in 64 hexadecimal digits. It stands for bytes that are too many to be shown, and for the text of a file of rows.
pub fn sum_of(alloc: Global, bytes: &[u8]) -> Result<String, AllocError>
    ensures { IfOk result (λ sum. string_bytes sum ≡ encode_lower (sha256 bytes.now)) }
{
    let sum = Sha256::digest(bytes);
    hex::encode(alloc, sum.as_slice())
}

/// Adds bytes as `'TEXT`, or their number and sum where they are more than so many.
pub fn push_shown(
    alloc: Global,
    text: &mut String,
    bytes: &[u8],
    most: usize,
) -> Result<(), AllocError> {
    if bytes.len() > most {
        let (len, sum) = (bytes.len(), sum_of(alloc, bytes)?);
        return write!(text, "{len} bytes {sum}");
    }
    text.push('\'')?;
    push_text(text, bytes)
}
