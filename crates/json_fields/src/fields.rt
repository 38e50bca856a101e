//! What stands at a name of a JSON object, where it has a form.

ghost use Rattle.std.specs.Prelude.{◌≡◌, ◌⊎◌, Some, None, IfOk, IfErr, option_map};
ghost use Rattle.serde_json.specs.View.{view, items_view};
ghost use Rattle.json_fields.specs.declared.fault.FieldFault.TheVariants.{Wrong, NoMemory};
ghost use Rattle.json_fields.specs.Json.{number_at, text_at, texts_at, texts_of, bytes_at, object_at};
ghost use Rattle.json_fields.specs.Views.{texts_view};

use crate::base64_text::{Alphabet, decode};
use crate::fault::{FieldFault, wrong};
use serde_json::Value;
use std::alloc::{AllocError, Global};

/// The whole number at a name.
pub fn number_at(alloc: Global, name: &str, object: &Value) -> Result<u64, FieldFault>
    ensures number { IfOk result (λ n. number_at name.now (view object.now) ≡ Some n) }
    ensures fault { IfErr result (λ fault. (fault ≡ NoMemory)
        ⊎ ((fault ≡ Wrong name.now) × (number_at name.now (view object.now) ≡ None))) }
{
    match object.get(name).and_then(Value::as_u64) {
        Some(n) => Ok(n),
        None => Err(wrong(alloc, name)),
    }
}

/// The text at a name.
pub fn text_at<'v>(alloc: Global, name: &str, object: &'v Value) -> Result<&'v str, FieldFault>
    ensures text { IfOk result (λ text. text_at name.now (view object.now) ≡ Some text.now) }
    ensures fault { IfErr result (λ fault. (fault ≡ NoMemory)
        ⊎ ((fault ≡ Wrong name.now) × (text_at name.now (view object.now) ≡ None))) }
{
    match object.get(name).and_then(Value::as_str) {
        Some(text) => Ok(text),
        None => Err(wrong(alloc, name)),
    }
}

/// The bytes whose base64 stands at a name.
pub fn bytes_at(
    alloc: Global,
    alphabet: Alphabet,
    name: &str,
    object: &Value,
) -> Result<Vec<u8>, FieldFault>
    ensures bytes { IfOk result (λ bytes. bytes_at alphabet name.now (view object.now) ≡ Some bytes.items) }
    ensures fault { IfErr result (λ fault. (fault ≡ NoMemory)
        ⊎ ((fault ≡ Wrong name.now) × (bytes_at alphabet name.now (view object.now) ≡ None))) }
{
    let Some(text) = object.get(name).and_then(Value::as_str) else {
        return Err(wrong(alloc, name));
    };
    match decode(alloc, alphabet, text.as_bytes())? {
        Some(bytes) => Ok(bytes),
        None => Err(wrong(alloc, name)),
    }
}

/// The object at a name.
pub fn object_at<'v>(alloc: Global, name: &str, object: &'v Value) -> Result<&'v Value, FieldFault>
    ensures object { IfOk result (λ found. object_at name.now (view object.now) ≡ Some (view found.now)) }
    ensures fault { IfErr result (λ fault. (fault ≡ NoMemory)
        ⊎ ((fault ≡ Wrong name.now) × (object_at name.now (view object.now) ≡ None))) }
{
    match object.get(name) {
        Some(found) if found.is_object() => Ok(found),
        _ => Err(wrong(alloc, name)),
    }
}

/// The texts of the array at a name.
pub fn texts_at<'v>(
    alloc: Global,
    name: &str,
    object: &'v Value,
) -> Result<Vec<&'v str>, FieldFault>
    ensures texts { IfOk result (λ texts. texts_at name.now (view object.now) ≡ Some (texts_view texts.items)) }
    ensures fault { IfErr result (λ fault. (fault ≡ NoMemory)
        ⊎ ((fault ≡ Wrong name.now) × (texts_at name.now (view object.now) ≡ None))) }
{
    let Some(items) = object.get(name).and_then(Value::as_array) else {
        return Err(wrong(alloc, name));
    };
    match texts_of(alloc, items.as_slice())? {
        Some(texts) => Ok(texts),
        None => Err(wrong(alloc, name)),
    }
}

// The items, where each of them is a text.
fn texts_of<'v>(alloc: Global, items: &'v [Value]) -> Result<Option<Vec<&'v str>>, AllocError>
    ensures { IfOk result (λ texts. option_map (λ v. texts_view v.items) texts ≡ texts_of (items_view items.now)) }
{
    let mut texts = Vec::new(alloc);
    for item in items {
        let Some(text) = item.as_str() else {
            return Ok(None);
        };
        texts.push(text)?;
    }
    Ok(Some(texts))
}
