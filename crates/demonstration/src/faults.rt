//! The answers to what isn't made.
ghost use Rattle.std.specs.Prelude.{◌≡◌, IsTrue};
ghost use Rattle.demo_core.specs.Making.{IsFailed, IsMakeFault, IsOfItems, IsTaken};
ghost use Rattle.demonstration.specs.Demo.{is_of_chance};
ghost use Rattle.folder_spec.specs.Path.{Path};
ghost use Rattle.migration_answers.specs.Stops.{is_of_stop};

use command_answers::Answer;
use content_writing::PutFault;
use demo_core::{MakeFault, place};
use folder_model::FPath;
use open_for_changing::{answer_to_put, answer_to_work};
use open_for_reading::answer_to_load;
use std::alloc::Global;

/// The answer to a vault at this root that isn't made, or an item in it.
pub(crate) fn answer_to_make(alloc: Global, root: &FPath, fault: MakeFault) -> Answer
    ensures own { IsMakeFault fault → IsTrue (is_of_stop result) }
    ensures failed { result ≡ Answer.FolderFault → IsMakeFault fault → IsFailed fault }
    ensures drawn { result ≡ Answer.RandomFault → fault ≡ MakeFault.Put PutFault.Random }
    ensures zeros { result ≡ Answer.ZeroRandom → fault ≡ MakeFault.Put PutFault.ZeroRandom }
    ensures taken { (at : Path) → result ≡ Answer.Taken at → IsTaken fault }
    ensures chance { IsOfItems fault → IsTrue (is_of_chance result) }
{
    match fault {
        MakeFault::Work(fault) => match place(alloc, "w") {
            Ok(work) => answer_to_work(&work, fault),
            Err(_) => Answer::OutOfMemory,
        },
        MakeFault::Load(fault) => answer_to_load(root, fault),
        MakeFault::Put(fault) => answer_to_put(fault),
        MakeFault::NoMemory => Answer::OutOfMemory,
    }
}
