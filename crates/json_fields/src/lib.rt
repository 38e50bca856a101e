//! The fields of JSON objects, read one by one, with base64 inside their texts.
#![tactic(auto)]

pub mod base64_text;
pub mod fault;
pub mod fields;
pub mod laws;
pub mod object;

pub use base64_text::{Alphabet, decode};
pub use fault::FieldFault;
pub use fields::{bytes_at, number_at, object_at, text_at, texts_at};
pub use object::json_object;
