//! Lines of rows that call the layers below the migration, or the folder itself.
#![tactic(auto)]

pub mod demonstration;
pub mod faults;
pub mod folders;
pub mod journals;
mod matching;
mod paths;
pub mod places;
mod reading;
mod staging;
mod walking;
mod work;
mod writing;

pub use demonstration::call_demonstration;
pub use folders::call_folder;
pub use journals::call_journal;
pub use matching::{call_mapping, call_matching};
pub use paths::call_paths;
pub use reading::call_reading;
pub use staging::call_staging;
pub use walking::call_walking;
pub use work::call_work;
pub use writing::call_writing;
