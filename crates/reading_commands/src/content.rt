//! `cat`: writes the content of a file of a vault.
ghost use Rattle.std.specs.Prelude.{⊤};
ghost use Rattle.port_model.specs.Counts.{CountRose};
ghost use Rattle.reading_commands.specs.Cat.{WritesFile};
ghost use Rattle.open_for_reading.specs.Carrying.{CarriesOut};
ghost use Rattle.open_for_reading.specs.World.{World};
ghost use Rattle.command_words.specs.declared.commands.Command.TheVariants.{Cat};

use crate::faults::answer_to_cat;
use command_answers::Answer;
use command_words::commands::Target;
use folder_model::Folder;
use open_for_reading::open;
use port_model::{Randoms, Sink, Source};
use std::alloc::Global;
use vault_read::laws::roots_have_one_answer;
use vault_spec::laws::what_is_found_stands;

/// Writes a file's content chunk by chunk, each as it is opened.
pub fn cat<F: Folder, R: Randoms, I: Source, O: Sink>(
    alloc: Global,
    target: &Target,
    folder: &mut F,
    random: &mut R,
    input: &mut I,
    out: &mut O,
) -> Answer
    ensures { CarriesOut (Cat target.now) (WritesFile target.now) (λ v. ⊤) result
        (record { told = F.told folder.old; left = I.left input.old; ended = I.ended input.old; taken = O.taken out.old; random = R.left random.old })
        (record { told = F.told folder.new; left = I.left input.new; ended = I.ended input.new; taken = O.taken out.new; random = R.left random.new })
        (CountRose (F.faults folder.old) (F.faults folder.new)) (CountRose (I.faults input.old) (I.faults input.new))
        (CountRose (O.faults out.old) (O.faults out.new)) (CountRose (R.faults random.old) (R.faults random.new)) }
{
    roots_have_one_answer();
    what_is_found_stands();
    let vault = match open(alloc, folder, &target.vault, &target.pass) {
        Ok(vault) => vault,
        Err(answer) => return answer,
    };
    match vault_read::cat(alloc, folder, &vault, &target.path, out) {
        Ok(_) => Answer::Done,
        Err(fault) => answer_to_cat(fault),
    }
}
