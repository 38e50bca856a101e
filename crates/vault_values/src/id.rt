//! Ids.

ghost use Rattle.std.specs.Prelude.{◌≡◌, IfOk, string_bytes};
ghost use Rattle.vault_values.specs.Id.{id_of};

use std::alloc::{AllocError, Global};
use uuid::{Builder, Uuid};

/// The id of sixteen drawn bytes: the hyphenated text of the version 4 UUID that they make, of 36 characters.
#[tactic(auto, unfolding(crate::specs::Id::id_of))]
pub fn id_text(alloc: Global, drawn: &[u8; 16]) -> Result<String, AllocError>
    ensures { IfOk result (λ text. string_bytes text ≡ id_of drawn.now) }
{
    let id = Builder::from_random_bytes(*drawn).into_uuid();
    let mut buffer = Uuid::encode_buffer();
    String::from_str(alloc, id.hyphenated().encode_lower(&mut buffer))
}
