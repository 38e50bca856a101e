//! What a walk finds.
use folder_model::FPath;

/// A finding of a number at a path of the folder.
#[derive(PartialEq, Eq, PartialOrd, Ord, Drop)]
pub(crate) struct Found {
    pub(crate) at: FPath,
    pub(crate) number: u8,
}
