//! Commands are made of what their words write, which is taken in the order of the row.
ghost use Rattle.std.specs.Prelude.{◌≡◌, IfSome, drop};
ghost use Rattle.std.specs.Vec.Iter.{into_iter_items};
ghost use Rattle.command_words.specs.Commands.{change_of, checking_of, command_by, demonstration_of, first, moving_of, names_by, new_pass_of, new_vault_of, passes_of, repairing_of, resuming_of, second, target_of};
ghost use Rattle.command_words.specs.Values.{folder_value};

use crate::commands::{
    Change, Checking, Command, Demonstration, Moving, NewPass, NewVault, Passes, Repairing,
    Resuming, Target,
};
use crate::rows::Verb;
use crate::values::{
    Value, next_flag, next_folder, next_format, next_key, next_number, next_plain,
};
use plain_tree::NameMap;
use std::vec::IntoIter;

/// The command of what its words write.
pub(crate) fn command(verb: Verb, values: Vec<Value>) -> Option<Command>
    ensures { result ≡ command_by verb values.items }
{
    let mut values = values.into_iter();
    match verb {
        Verb::DecryptFile => next_key(&mut values).map(Command::DecryptFile),
        Verb::Init => new_vault(&mut values).map(Command::Init),
        Verb::Ls => target(&mut values).map(Command::Ls),
        Verb::Cat => target(&mut values).map(Command::Cat),
        Verb::Fsck => checking(&mut values).map(Command::Fsck),
        Verb::Mkdir => change(&mut values).map(Command::Mkdir),
        Verb::Put => change(&mut values).map(Command::Put),
        Verb::Repair => repairing(&mut values).map(Command::Repair),
        Verb::Migrate => moving(&mut values).map(Command::Migrate),
        Verb::Resume => resuming(&mut values).map(Command::Resume),
        Verb::Retire => resuming(&mut values).map(Command::Retire),
        Verb::Passwd => new_pass(&mut values).map(Command::Passwd),
        Verb::Demo => demonstration(&mut values).map(Command::Demo),
    }
}

fn new_vault(values: &mut IntoIter<Value>) -> Option<NewVault>
    ensures { result ≡ new_vault_of (into_iter_items values.old) }
{
    let format = next_format(values)?;
    let vault = next_folder(values)?;
    let pass = next_folder(values)?;
    let work = next_folder(values)?;
    Some(NewVault {
        format,
        vault,
        pass,
        work,
    })
}

fn new_pass(values: &mut IntoIter<Value>) -> Option<NewPass>
    ensures { result ≡ new_pass_of (into_iter_items values.old) }
{
    let vault = next_folder(values)?;
    let pass = next_folder(values)?;
    let new_pass = next_folder(values)?;
    let work = next_folder(values)?;
    Some(NewPass {
        vault,
        pass,
        new_pass,
        work,
    })
}

fn target(values: &mut IntoIter<Value>) -> Option<Target>
    ensures is { result ≡ target_of (into_iter_items values.old) }
    ensures rest { IfSome result (λ target. into_iter_items values.new ≡ drop 1 (drop 1 (drop 1 (into_iter_items values.old)))) }
{
    let vault = next_folder(values)?;
    let path = next_plain(values)?;
    let pass = next_folder(values)?;
    Some(Target { vault, path, pass })
}

fn checking(values: &mut IntoIter<Value>) -> Option<Checking>
    ensures { result ≡ checking_of (into_iter_items values.old) }
{
    let vault = next_folder(values)?;
    let pass = next_folder(values)?;
    Some(Checking { vault, pass })
}

fn change(values: &mut IntoIter<Value>) -> Option<Change>
    ensures { result ≡ change_of (into_iter_items values.old) }
{
    let target = target(values)?;
    let work = next_folder(values)?;
    Some(Change { target, work })
}

fn repairing(values: &mut IntoIter<Value>) -> Option<Repairing>
    ensures { result ≡ repairing_of (into_iter_items values.old) }
{
    let vault = next_folder(values)?;
    let lost = next_folder(values)?;
    let pass = next_folder(values)?;
    Some(Repairing { vault, lost, pass })
}

fn moving(values: &mut IntoIter<Value>) -> Option<Moving>
    ensures { result ≡ moving_of (into_iter_items values.old) }
{
    let source = next_folder(values)?;
    let target = next_folder(values)?;
    let work = next_folder(values)?;
    let passes = passes(values)?;
    let names = names_by(next_flag(values)?);
    Some(Moving {
        source,
        target,
        work,
        passes,
        names,
    })
}

fn names_by(nfc: bool) -> NameMap
    ensures { result ≡ names_by nfc }
{
    if nfc { NameMap::Nfc } else { NameMap::Same }
}

fn resuming(values: &mut IntoIter<Value>) -> Option<Resuming>
    ensures { result ≡ resuming_of (into_iter_items values.old) }
{
    let work = next_folder(values)?;
    let passes = passes(values)?;
    Some(Resuming { work, passes })
}

fn passes(values: &mut IntoIter<Value>) -> Option<Passes>
    ensures is { result ≡ passes_of (folder_value (first (into_iter_items values.old))) (folder_value (second (into_iter_items values.old))) }
    ensures rest { IfSome result (λ passes. into_iter_items values.new ≡ drop 1 (drop 1 (into_iter_items values.old))) }
{
    let source = next_folder(values)?;
    let target = next_folder(values)?;
    Some(Passes { source, target })
}

fn demonstration(values: &mut IntoIter<Value>) -> Option<Demonstration>
    ensures { result ≡ demonstration_of (into_iter_items values.old) }
{
    let seed = next_number(values)?;
    let count = next_number(values)?;
    Some(Demonstration { seed, count })
}
