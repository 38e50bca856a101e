//! `mkdir`: makes a directory in a vault.
ghost use Rattle.std.specs.Prelude.{⊤};
ghost use Rattle.port_model.specs.Counts.{CountRose};
ghost use Rattle.writing_commands.specs.Mkdir.{MakesDirectoryIn};
ghost use Rattle.open_for_reading.specs.Carrying.{CarriesOut};
ghost use Rattle.open_for_reading.specs.World.{World};
ghost use Rattle.command_words.specs.declared.commands.Command.TheVariants.{Mkdir};

use crate::faults::answer_to_making;
use command_answers::Answer;
use command_words::commands::Change;
use folder_model::Folder;
use folder_spec::laws::roots_show_their_own;
use open_for_changing::begin;
use port_model::laws::draws_compose;
use port_model::{Randoms, Sink, Source};
use std::alloc::Global;
use vault_write::place_dir;

/// Makes a directory where nothing stands.
pub fn mkdir<F: Folder, R: Randoms, I: Source, O: Sink>(
    alloc: Global,
    change: &Change,
    folder: &mut F,
    random: &mut R,
    input: &mut I,
    out: &mut O,
) -> Answer
    ensures { CarriesOut (Mkdir change.now) (MakesDirectoryIn change.now) (λ v. ⊤) result
        (record { told = F.told folder.old; left = I.left input.old; ended = I.ended input.old; taken = O.taken out.old; random = R.left random.old })
        (record { told = F.told folder.new; left = I.left input.new; ended = I.ended input.new; taken = O.taken out.new; random = R.left random.new })
        (CountRose (F.faults folder.old) (F.faults folder.new)) (CountRose (I.faults input.old) (I.faults input.new))
        (CountRose (O.faults out.old) (O.faults out.new)) (CountRose (R.faults random.old) (R.faults random.new)) }
{
    draws_compose();
    roots_show_their_own();
    match begin(alloc, change, folder) {
        Ok(site) => answer_to_making(place_dir(
            alloc,
            folder,
            &site.work,
            &site.vault,
            &change.target.path,
            random,
        )),
        Err(answer) => answer,
    }
}
