//! `ls`: lists a directory of a vault.
ghost use Rattle.std.specs.Prelude.{◌≡◌, ◌++◌, ◌∷◌, [], ⊤, Err, IfErr, IfOk, IsTrue, OnOk, string_bytes};
ghost use Rattle.folder_spec.specs.Seen.{IfSeen};
ghost use Rattle.port_model.specs.Counts.{CountRose};
ghost use Rattle.reading_commands.specs.Ls.{ListsItems, ShowsItems, item_line, ls_text, node_letter};
ghost use Rattle.open_for_reading.specs.Carrying.{CarriesOut};
ghost use Rattle.open_for_reading.specs.Refusing.{Unless};
ghost use Rattle.open_for_reading.specs.Shown.{is_refusal, refused};
ghost use Rattle.open_for_reading.specs.World.{World};
ghost use Rattle.command_words.specs.declared.commands.Command.TheVariants.{Ls};

use command_answers::Answer;
use command_words::commands::Target;
use folder_model::Folder;
use open_for_reading::{answer_to_find, open};
use plain_tree::NodeKind;
use port_model::{Randoms, Sink, Source};
use std::alloc::{AllocError, Global};
use vault_read::laws::roots_have_one_answer;
use vault_read::{Item, list};
use vault_spec::laws::directories_have_one_list;

/// Writes the items of a directory, one a line, once all are known.
pub fn ls<F: Folder, R: Randoms, I: Source, O: Sink>(
    alloc: Global,
    target: &Target,
    folder: &mut F,
    random: &mut R,
    input: &mut I,
    out: &mut O,
) -> Answer
    ensures { CarriesOut (Ls target.now) (ListsItems target.now) (λ v. ⊤) result
        (record { told = F.told folder.old; left = I.left input.old; ended = I.ended input.old; taken = O.taken out.old; random = R.left random.old })
        (record { told = F.told folder.new; left = I.left input.new; ended = I.ended input.new; taken = O.taken out.new; random = R.left random.new })
        (CountRose (F.faults folder.old) (F.faults folder.new)) (CountRose (I.faults input.old) (I.faults input.new))
        (CountRose (O.faults out.old) (O.faults out.new)) (CountRose (R.faults random.old) (R.faults random.new)) }
{
    roots_have_one_answer();
    directories_have_one_list();
    let text = match listing(alloc, target, folder) {
        Ok(text) => text,
        Err(answer) => return answer,
    };
    match out.put(text.as_bytes()) {
        Ok(()) => Answer::Done,
        Err(_) => Answer::OutputFault,
    }
}

// The lines of the directory's items.
fn listing<F: Folder>(alloc: Global, target: &Target, folder: &mut F) -> Result<String, Answer>
    ensures told { F.told folder.new ≡ F.told folder.old }
    ensures text { IfOk result (λ text. IfSeen (F.told folder.old) (λ v. ShowsItems target.now v (record { pieces = string_bytes text ∷ []; answer = Answer.Done }))) }
    ensures refused { IfErr result (λ answer. IfSeen (F.told folder.old) (λ v. Unless answer (ShowsItems target.now v (refused answer)))) }
    ensures failed { result ≡ Err Answer.FolderFault → CountRose (F.faults folder.old) (F.faults folder.new) }
    ensures own { IfErr result (λ answer. IsTrue (is_refusal answer)) }
{
    let vault = open(alloc, folder, &target.vault, &target.pass)?;
    match list(alloc, folder, &vault, &target.path) {
        Ok(items) => Ok(text_of(alloc, items.as_slice())?),
        Err(fault) => Err(answer_to_find(fault)),
    }
}

// A line for each item.
fn text_of(alloc: Global, items: &[Item]) -> Result<String, AllocError>
    ensures { IfOk result (λ text. string_bytes text ≡ ls_text items.now) }
{
    let mut text = String::new(alloc);
    for item in items {
        push_item(&mut text, item)?;
    }
    Ok(text)
}

// Adds an item's line.
fn push_item(text: &mut String, item: &Item) -> Result<(), AllocError>
    ensures { OnOk result (string_bytes text.new ≡ string_bytes text.old ++ item_line item.now) }
{
    text.push(node_letter(item.node))?;
    text.push(' ')?;
    text.push_str(item.name.shown()?.as_str())?;
    text.push('\n')
}

fn node_letter(node: NodeKind) -> char
    ensures { result ≡ node_letter node }
{
    match node {
        NodeKind::Dir => 'd',
        NodeKind::File => 'f',
    }
}
