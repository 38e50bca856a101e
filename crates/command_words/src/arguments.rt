//! The words behind a command's name: its options and its positional words.
ghost use Rattle.std.specs.List.{position_or_len};
ghost use Rattle.std.specs.Prelude.{◌≡◌, ◌++◌, false, IfOk, OnOk, map, option_map, string_bytes};
ghost use Rattle.command_words.specs.Words as spec;
ghost use Rattle.command_words.specs.Words.{
  arguments_of,
  begins_with_dash,
  choice_of,
  choices_in,
  ends_options,
  is_among,
  is_option,
  positional_in,
  takes_next,
  value_in,
};

use crate::rows::Flag;
use std::alloc::{AllocError, Global};
use std::marker::Model;

/// An option of the command line, and its value, if it has one.
#[derive(Drop)]
pub(crate) struct Choice<'a> {
    pub name: &'a str,
    pub value: Option<&'a str>,
}

impl<'a> Model for Choice<'a> {
    ghost use Rattle.std.specs.Prelude.{option_map};
    ghost use Rattle.command_words.specs.Words.{Choice};

    ghost Value = { Choice };

    ghost view = { λ choice. record { name = choice.name.now; value = option_map (λ text. text.now) choice.value } };
}

/// What stands behind a command's name.
#[derive(Drop)]
pub(crate) struct Arguments<'a> {
    choices: Vec<Choice<'a>>,
    positional: Vec<&'a str>,
}

impl<'a> Model for Arguments<'a> {
    ghost use Rattle.std.specs.Prelude.{map};
    ghost use Rattle.command_words.specs.Words.{Arguments};

    ghost Value = { Arguments };

    ghost view = { λ arguments. record { choices = arguments.choices.items; positional = map (λ word. word.now) arguments.positional.items } };
}

impl<'a> Arguments<'a> {
    /// The options and positional words among the words behind the name of a command with these flags.
    pub(crate) fn of(
        alloc: Global,
        flags: &[Flag],
        words: &'a [String],
    ) -> Result<Arguments<'a>, AllocError>
        ensures { IfOk result (λ arguments. arguments ≡ arguments_of (map (λ flag. flag.name.now) flags.now) (map string_bytes words.now)) }
    {
        let (front, behind) = parted(words);
        let choices = choices_in(alloc, flags, front)?;
        let mut positional = positional_in(alloc, flags, front)?;
        push_all(&mut positional, behind)?;
        Ok(Arguments {
            choices,
            positional,
        })
    }

    pub(crate) fn choices(&self) -> &[Choice<'a>]
        ensures { result.now ≡ self.now.choices }
    {
        self.choices.as_slice()
    }

    pub(crate) fn positional(&self) -> &[&'a str]
        ensures { map (λ word. word.now) result.now ≡ self.now.positional }
    {
        self.positional.as_slice()
    }
}

// The words before the first `--`, and those behind it.
fn parted(words: &[String]) -> (&[String], &[String])
    ensures front { map string_bytes result.0.now ≡ spec.before_end (map string_bytes words.now) }
    ensures behind { map string_bytes result.1.now ≡ spec.behind_end (map string_bytes words.now) }
{
    let end = end_of(words);
    if end < words.len() {
        (&words[..end], &words[end + 1..])
    } else {
        (words, &[])
    }
}

// How many words stand before the first `--`.
fn end_of(words: &[String]) -> usize
    ensures { result ≡ position_or_len ends_options (map string_bytes words.now) }
{
    let mut end = 0;
    while end < words.len() && words[end].as_str() != "--" {
        end += 1;
    }
    end
}

fn choices_in<'a>(
    alloc: Global,
    flags: &[Flag],
    words: &'a [String],
) -> Result<Vec<Choice<'a>>, AllocError>
    ensures { IfOk result (λ choices. choices.items ≡ choices_in (map (λ flag. flag.name.now) flags.now) (map string_bytes words.now)) }
{
    let mut choices = Vec::new(alloc);
    let mut rest = words;
    while let Some((word, others)) = rest.split_first() {
        if is_option(word.as_str()) {
            choices.push(choice_of(flags, word.as_str(), others))?;
        }
        rest = others;
    }
    Ok(choices)
}

// The option that a word is, by the words behind it.
fn choice_of<'a>(flags: &[Flag], word: &'a str, rest: &'a [String]) -> Choice<'a>
    ensures { result ≡ choice_of (map (λ flag. flag.name.now) flags.now) word.now (map string_bytes rest.now) }
{
    match word.split_once('=') {
        Some((name, value)) => Choice {
            name,
            value: Some(value),
        },
        None if is_flag(word, flags) => Choice {
            name: word,
            value: None,
        },
        None => Choice {
            name: word,
            value: value_in(rest),
        },
    }
}

// The next word as an option's value.
fn value_in(rest: &[String]) -> Option<&str>
    ensures { option_map (λ value. value.now) result ≡ value_in (map string_bytes rest.now) }
{
    match rest {
        [next, ..] if !begins_with_dash(next.as_str()) => Some(next.as_str()),
        _ => None,
    }
}

// The words that are neither options nor their values.
fn positional_in<'a>(
    alloc: Global,
    flags: &[Flag],
    words: &'a [String],
) -> Result<Vec<&'a str>, AllocError>
    ensures { IfOk result (λ positional. map (λ word. word.now) positional.items ≡ positional_in (map (λ flag. flag.name.now) flags.now) false (map string_bytes words.now)) }
{
    let mut positional = Vec::new(alloc);
    let mut taken = false;
    let mut rest = words;
    while let Some((word, others)) = rest.split_first() {
        if !taken && !is_option(word.as_str()) {
            positional.push(word.as_str())?;
        }
        taken = takes_next(flags, word.as_str());
        rest = others;
    }
    Ok(positional)
}

fn push_all<'a>(texts: &mut Vec<&'a str>, words: &'a [String]) -> Result<(), AllocError>
    ensures { OnOk result (map (λ text. text.now) texts.new.items ≡ map (λ text. text.now) texts.old.items ++ map string_bytes words.now) }
{
    for word in words {
        texts.push(word.as_str())?;
    }
    Ok(())
}

fn begins_with_dash(word: &str) -> bool
    ensures { result ≡ begins_with_dash word.now }
{
    match word.as_bytes() {
        [byte, ..] => *byte == b'-',
        [] => false,
    }
}

fn is_option(word: &str) -> bool
    ensures { result ≡ is_option word.now }
{
    begins_with_dash(word) && word.len() > 1
}

/// Whether this is the name of one of these flags.
pub(crate) fn is_flag(name: &str, flags: &[Flag]) -> bool
    ensures { result ≡ is_among name.now (map (λ flag. flag.name.now) flags.now) }
{
    for flag in flags {
        if flag.name == name {
            return true;
        }
    }
    false
}

// Whether the next word is the value of this one.
fn takes_next(flags: &[Flag], word: &str) -> bool
    ensures { result ≡ takes_next (map (λ flag. flag.name.now) flags.now) word.now }
{
    is_option(word) && word.split_once('=').is_none() && !is_flag(word, flags)
}
