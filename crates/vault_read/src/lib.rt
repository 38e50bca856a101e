//! Vaults of both formats, opened and read through a folder.
//!
//! What stands in a vault is said by the definitions of `vault_spec`, of what is seen at and below the vault's root where the
//! folder tells it.
#![tactic(auto)]

pub mod content;
pub mod fault;
pub mod finding;
pub mod items;
pub mod laws;
pub mod listing;
pub mod loading;
pub mod looking;
pub mod reader;
pub mod standing;
pub mod vault;

pub use content::cat;
pub use fault::LoadFault;
pub use finding::{DirPlace, Place, enter, find};
pub use items::{EntryItem, item_at, item_of_kind};
pub use listing::{Found, Item, NameAt, items_in, list, name_at};
pub use looking::{SmallFile, kind_under, read_small};
pub use reader::ContentReader;
pub use standing::{Directory, Standing, key_at, root_standing};
pub use vault::{CmVault, Vault, VaultKeys, VaultKind, content_folder, folder_of, stored_in};
