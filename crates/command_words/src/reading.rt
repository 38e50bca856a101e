//! What the words behind a command's name write, by the command's row.
ghost use Rattle.std.specs.List.{list_all};
ghost use Rattle.std.specs.Slice.Iter.{iter_rest};
ghost use Rattle.std.specs.Prelude.{◌≡◌, ◌==◌, ◌++◌, ◌∷◌, IfOk, IfSome, List, MatchOption, None, map, nat_le, option_map, string_bytes};
ghost use Rattle.command_words.specs.Rows.{kinds_of, option_of_code, row_of_code};
ghost use Rattle.command_words.specs.Words.{is_among};
ghost use Rattle.command_words.specs.declared.rows.Kind.{Kind};
ghost use Rattle.command_words.specs.Values.{fits, flag_values, is_of, joined, may_lack, option_values, times, value_by, value_named, values_in, values_of, written};
ghost use Rattle.command_words.specs.Written.{AllWritten, EachWritten};

use crate::arguments::{Arguments, Choice, is_flag};
use crate::rows::{Flag, Kind, Row, Valued, Word};
use crate::values::{Value, value_of};
use std::alloc::{AllocError, Global};
use std::slice::Iter;

/// What they write: the positional words, then the options and then the flags, in the order of the row. `None` where they don't make the
/// row's command.
pub(crate) fn values_of_words(
    alloc: Global,
    row: &Row,
    words: &[String],
) -> Result<Option<Vec<Value>>, AllocError>
    ensures is { IfOk result (λ values. option_map (λ all. all.items) values ≡ written (row_of_code row.now) (map string_bytes words.now)) }
    ensures written { IfOk result (λ values. IfSome values (λ all. AllWritten (kinds_of (row_of_code row.now)) all.items)) }
{
    let arguments = Arguments::of(alloc, row.flags, words)?;
    values_in(alloc, row, &arguments)
}

// What arguments write: lent, so that no exit drops them.
fn values_in(
    alloc: Global,
    row: &Row,
    arguments: &Arguments,
) -> Result<Option<Vec<Value>>, AllocError>
    ensures is { IfOk result (λ values. option_map (λ all. all.items) values ≡ values_in (row_of_code row.now) arguments.now) }
    ensures written { IfOk result (λ values. IfSome values (λ all. AllWritten (kinds_of (row_of_code row.now)) all.items)) }
{
    let choices = arguments.choices();
    if !fits(row, choices) {
        return Ok(None);
    }
    let Some(values) = words_read(alloc, row.words, arguments.positional())? else {
        return Ok(None);
    };
    let Some(options) = options_read(alloc, row.options, choices)? else {
        return Ok(None);
    };
    let flags = flags_read(alloc, row.flags, choices)?;
    Ok(Some(together(values, options, flags)?))
}

fn together(
    mut values: Vec<Value>,
    mut options: Vec<Value>,
    mut flags: Vec<Value>,
) -> Result<Vec<Value>, AllocError>
    ensures is { IfOk result (λ all. all.items ≡ values.items ++ options.items ++ flags.items) }
    ensures written { (kinds more : List Kind) → EachWritten kinds values.items → EachWritten more options.items → IfOk result (λ all. AllWritten (kinds ++ more) all.items) }
{
    values.append(&mut options)?;
    values.append(&mut flags)?;
    Ok(values)
}

// Whether the options are the row's, each once, and flags of the row, each once at most.
fn fits(row: &Row, choices: &[Choice]) -> bool
    ensures { result ≡ fits (row_of_code row.now) choices.now }
{
    are_once(row.options, choices) && are_once_at_most(row.flags, choices) && are_of(row, choices)
}

fn are_once(options: &[Valued], choices: &[Choice]) -> bool
    ensures { result ≡ list_all (λ valued. times valued.name choices.now == 1) (map option_of_code options.now) }
{
    for valued in options {
        if times(valued.name, choices) != 1 {
            return false;
        }
    }
    true
}

fn are_once_at_most(flags: &[Flag], choices: &[Choice]) -> bool
    ensures { result ≡ list_all (λ flag. nat_le (times flag choices.now) 1) (map (λ flag. flag.name.now) flags.now) }
{
    for flag in flags {
        if times(flag.name, choices) > 1 {
            return false;
        }
    }
    true
}

fn are_of(row: &Row, choices: &[Choice]) -> bool
    ensures { result ≡ list_all (λ choice. is_of (row_of_code row.now) choice) choices.now }
{
    for choice in choices {
        if !is_of(row, choice) {
            return false;
        }
    }
    true
}

// Whether an option is one of the row's, or one of its flags, without a value.
fn is_of(row: &Row, choice: &Choice) -> bool
    ensures { result ≡ is_of (row_of_code row.now) choice.now }
{
    is_option_of(row.options, choice.name)
        || is_flag(choice.name, row.flags) && choice.value.is_none()
}

fn is_option_of(options: &[Valued], name: &str) -> bool
    ensures { result ≡ is_among name.now (map (λ valued. valued.name) (map option_of_code options.now)) }
{
    for valued in options {
        if valued.name == name {
            return true;
        }
    }
    false
}

// How many options have this name.
fn times(name: &str, choices: &[Choice]) -> usize
    ensures { result ≡ times name.now choices.now }
{
    let mut count = 0;
    for choice in choices {
        if choice.name == name {
            count += 1;
        }
    }
    count
}

// What positional words write.
fn words_read<'a>(
    alloc: Global,
    shown: &[Word],
    words: &'a [&'a str],
) -> Result<Option<Vec<Value>>, AllocError>
    ensures is { IfOk result (λ values. option_map (λ all. all.items) values ≡ values_of (map (λ it. it.kind) shown.now) (map (λ word. word.now) words.now)) }
    ensures written { IfOk result (λ values. IfSome values (λ all. EachWritten (map (λ it. it.kind) shown.now) all.items)) }
{
    let mut values = Vec::new(alloc);
    let (mut shown, mut words) = (shown, words.iter());
    while let Some((one, more)) = shown.split_first() {
        let Some(word) = next_word(one.kind, more, &mut words) else {
            return Ok(None);
        };
        let Some(value) = value_of(alloc, one.kind, word)? else {
            return Ok(None);
        };
        values.push(value)?;
        shown = more;
    }
    if words.next().is_none() {
        Ok(Some(values))
    } else {
        Ok(None)
    }
}

// Takes the word of this kind, before these words: the empty text where it is left out.
fn next_word<'a>(kind: Kind, more: &[Word], words: &mut Iter<'a, &'a str>) -> Option<&'a str>
    ensures { MatchOption result (values_of (kind ∷ map (λ it. it.kind) more.now) (map (λ word. word.now) (iter_rest words.old)) ≡ None)
        (λ found. values_of (kind ∷ map (λ it. it.kind) more.now) (map (λ word. word.now) (iter_rest words.old)) ≡ joined (value_by kind found.now) (values_of (map (λ it. it.kind) more.now) (map (λ word. word.now) (iter_rest words.new)))) }
{
    match words.next() {
        Some(word) => Some(*word),
        None if may_lack(kind, more) => Some(""),
        None => None,
    }
}

// Whether a word of this kind may be left out, before these words.
fn may_lack(kind: Kind, more: &[Word]) -> bool
    ensures { result ≡ may_lack kind (map (λ it. it.kind) more.now) }
{
    match (kind, more) {
        (Kind::PlainPathOrRoot, []) => true,
        _ => false,
    }
}

// What the values of options write.
fn options_read(
    alloc: Global,
    options: &[Valued],
    choices: &[Choice],
) -> Result<Option<Vec<Value>>, AllocError>
    ensures is { IfOk result (λ values. option_map (λ all. all.items) values ≡ option_values choices.now (map option_of_code options.now)) }
    ensures written { IfOk result (λ values. IfSome values (λ all. EachWritten (map (λ valued. valued.kind) (map option_of_code options.now)) all.items)) }
{
    let mut values = Vec::new(alloc);
    for valued in options {
        let Some(text) = value_named(choices, valued.name) else {
            return Ok(None);
        };
        let Some(value) = value_of(alloc, valued.value.kind, text)? else {
            return Ok(None);
        };
        values.push(value)?;
    }
    Ok(Some(values))
}

// The value of the first option of this name, if it has one.
fn value_named<'a>(choices: &[Choice<'a>], name: &str) -> Option<&'a str>
    ensures { option_map (λ text. text.now) result ≡ value_named name.now choices.now }
{
    for choice in choices {
        if choice.name == name {
            return choice.value;
        }
    }
    None
}

// Which flags are there.
fn flags_read(alloc: Global, flags: &[Flag], choices: &[Choice]) -> Result<Vec<Value>, AllocError>
    ensures { IfOk result (λ values. values.items ≡ flag_values choices.now (map (λ flag. flag.name.now) flags.now)) }
{
    let mut values = Vec::new(alloc);
    for flag in flags {
        values.push(Value::Flag(times(flag.name, choices) == 1))?;
    }
    Ok(values)
}
