//! JSON objects in bytes.

ghost use Rattle.std.specs.Prelude.{◌≡◌, IfOk, option_map};
ghost use Rattle.serde_json.specs.View.{view};
ghost use Rattle.json_fields.specs.Json.{json_object, object_of};

use serde_json::Value;
use std::alloc::{AllocError, Global};

/// The JSON object that the bytes are the text of, or `None` where there is none.
pub fn json_object(alloc: Global, bytes: &[u8]) -> Result<Option<Value>, AllocError>
    ensures { IfOk result (λ object. option_map view object ≡ json_object bytes.now) }
{
    match Value::from_slice(alloc, bytes) {
        Ok(value) => Ok(if_object(value)),
        Err(error) => {
            if error.is_memory() {
                Err(AllocError)
            } else {
                Ok(None)
            }
        }
    }
}

// The value, where it is an object.
fn if_object(value: Value) -> Option<Value>
    ensures { option_map view result ≡ object_of (view value) }
{
    if value.is_object() { Some(value) } else { None }
}
