//! Calls of plain_tree.

use crate::answer::Answer;
use crate::arguments::Arguments;
use plain_tree::{Name, NameMap, NameNewFault, NodeKind, PathFault, PlainPath, shown_text};
use std::alloc::Global;
use std::cmp::Ordering;

/// Makes a call of this module, and says whether there is one of this name.
pub fn answer(name: &str, args: &mut Arguments, answer: &mut Answer) -> bool {
    match name {
        "name" => name_back(args, answer),
        "shown" => shown(args, answer),
        "nfc" => nfc(args, answer),
        "mapped" => mapped(args, answer),
        "mapped-path" => mapped_path(args, answer),
        "path" => path_back(args, answer),
        "order" => order(args, answer),
        "kinds" => answer.yes_or_no(NodeKind::Dir == NodeKind::File),
        _ => return false,
    }
    true
}

/// The name that an argument writes; none where it writes no name, which the answer says.
pub fn name(args: &Arguments, place: usize, answer: &mut Answer) -> Option<Name> {
    match Name::new(answer.alloc(), args.bytes(place)) {
        Ok(name) => Some(name),
        Err(fault) => {
            refused(fault, answer);
            None
        }
    }
}

// The bytes of a name, which equals its copy.
fn name_back(args: &Arguments, answer: &mut Answer) {
    let Some(name) = name(args, 0, answer) else {
        return;
    };
    answer.bytes(name.bytes());
    match name.copy() {
        Ok(copy) => answer.unless(copy == name, "its copy is another"),
        Err(_) => answer.lacks(),
    }
}

// The shown form of a name, which is that of its bytes.
fn shown(args: &Arguments, answer: &mut Answer) {
    let Some(name) = name(args, 0, answer) else {
        return;
    };
    let Ok(shown) = name.shown() else {
        return answer.lacks();
    };
    match shown_text(answer.alloc(), args.bytes(0)) {
        Ok(of_bytes) => answer.unless(
            of_bytes.as_str() == shown.as_str(),
            "its bytes are shown otherwise:",
        ),
        Err(_) => answer.lacks(),
    }
    answer.word(shown.as_str());
}

fn nfc(args: &Arguments, answer: &mut Answer) {
    let Some(name) = name(args, 0, answer) else {
        return;
    };
    match name.is_nfc() {
        Ok(is_nfc) => answer.yes_or_no(is_nfc),
        Err(_) => answer.lacks(),
    }
}

// The rule that the first argument names.
fn rule(args: &Arguments) -> NameMap {
    match args.word(0) {
        "same" => NameMap::Same,
        "nfc" => NameMap::Nfc,
        _ => {
            args.refuse("no such rule for names");
            NameMap::Same
        }
    }
}

fn refused(fault: NameNewFault, answer: &mut Answer) {
    match fault {
        NameNewFault::BadName => answer.word("bad name"),
        NameNewFault::NoMemory => answer.lacks(),
    }
}

// What a rule makes of a name, which it makes of that again.
fn mapped(args: &Arguments, answer: &mut Answer) {
    let names = rule(args);
    let Some(name) = name(args, 1, answer) else {
        return;
    };
    match names.apply(answer.alloc(), &name) {
        Ok(new) => mapped_again(names, &new, answer),
        Err(fault) => refused(fault, answer),
    }
}

fn mapped_again(names: NameMap, new: &Name, answer: &mut Answer) {
    answer.bytes(new.bytes());
    match names.apply(answer.alloc(), new) {
        Ok(again) => answer.unless(again == *new, "another of that"),
        Err(fault) => refused(fault, answer),
    }
}

// The shown form of what a rule makes of a path.
fn mapped_path(args: &Arguments, answer: &mut Answer) {
    let Some(path) = path(answer.alloc(), args.text(1)) else {
        return args.refuse("no path");
    };
    match path.mapped(rule(args)) {
        Ok(new) => answer.made(new.shown()),
        Err(fault) => refused(fault, answer),
    }
}

fn path_back(args: &Arguments, answer: &mut Answer) {
    match PlainPath::parse(answer.alloc(), args.text(0)) {
        Ok(path) => path_told(&path, args.text(0), answer),
        Err(PathFault::BadPath) => answer.word("bad path"),
        Err(PathFault::NoMemory) => answer.lacks(),
    }
}

// How many names a path has. It shows itself as it was written, and equals its copy.
fn path_told(path: &PlainPath, written: &str, answer: &mut Answer) {
    match path.shown() {
        Ok(shown) => answer.unless(shown.as_str() == written, "it is shown otherwise:"),
        Err(_) => answer.lacks(),
    }
    match path.copy() {
        Ok(copy) => answer.unless(copy == *path, "its copy is another:"),
        Err(_) => answer.lacks(),
    }
    answer.shows(&path.names().len());
}

// The path that an argument writes, name below name from the root.
fn path(alloc: Global, text: &str) -> Option<PlainPath> {
    let parsed = PlainPath::parse(alloc, text).ok()?;
    let mut path = PlainPath::root(alloc);
    for name in parsed.names() {
        let below = path.child(name).ok()?;
        path = below;
    }
    if path == parsed { Some(path) } else { None }
}

fn order(args: &Arguments, answer: &mut Answer) {
    match compared(answer.alloc(), args.text(0), args.text(1)) {
        Some(Ordering::Less) => answer.word("less"),
        Some(Ordering::Equal) => answer.word("equal"),
        Some(Ordering::Greater) => answer.word("greater"),
        None => args.refuse("no two paths, each that of its names"),
    }
}

fn compared(alloc: Global, left: &str, right: &str) -> Option<Ordering> {
    let left = path(alloc, left)?;
    let right = path(alloc, right)?;
    Some(left.cmp(&right))
}
