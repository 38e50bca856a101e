//! Calls of vault_values and json_fields.

use crate::answer::Answer;
use crate::arguments::Arguments;
use json_fields::{
    Alphabet, FieldFault, bytes_at, decode, json_object, number_at, object_at, text_at, texts_at,
};
use serde_json::Value;
use vault_values::{Bytes, Text};

/// Makes a call of this module, and says whether there is one of this name.
pub fn answer(name: &str, args: &mut Arguments, answer: &mut Answer) -> bool {
    match name {
        "text" => text_back(args, answer),
        "text-copied" => text_copied(args, answer),
        "text-after" => text_after(args, answer),
        "texts-equal" => texts_equal(args, answer),
        "bytes" => bytes_back(args, answer),
        "bytes-equal" => bytes_equal(args, answer),
        "base64" => decoded(args, answer),
        _ => return json_answer(name, args, answer),
    }
    true
}

// The text of an argument, which a string of its own holds.
fn text(args: &Arguments, place: usize, answer: &mut Answer) -> Text {
    let alloc = answer.alloc();
    match String::from_str(alloc, args.text(place)) {
        Ok(text) => Text::new(text),
        Err(_) => {
            answer.lacks();
            Text::new(String::new(alloc))
        }
    }
}

// The text of a string, which is given back.
fn text_back(args: &Arguments, answer: &mut Answer) {
    let held = text(args, 0, answer);
    answer.bytes(held.as_str().as_bytes());
    let is_given_back = held.into_string().as_str() == args.text(0);
    answer.unless(is_given_back, "another string is given back");
}

fn text_copied(args: &Arguments, answer: &mut Answer) {
    match Text::copy_of(answer.alloc(), args.text(0)) {
        Ok(held) => answer.bytes(held.as_str().as_bytes()),
        Err(_) => answer.lacks(),
    }
}

// A text behind another one, as it shows itself.
fn text_after(args: &Arguments, answer: &mut Answer) {
    let (alloc, front) = (answer.alloc(), args.text(0));
    let held = text(args, 1, answer);
    match format!(in alloc; "{front}{held}") {
        Ok(both) => answer.bytes(both.as_bytes()),
        Err(_) => answer.lacks(),
    }
}

fn texts_equal(args: &Arguments, answer: &mut Answer) {
    let left = text(args, 0, answer);
    let right = text(args, 1, answer);
    answer.yes_or_no(left == right);
}

// The bytes of an argument, which a vector of its own holds.
fn bytes(args: &Arguments, place: usize, answer: &mut Answer) -> Bytes {
    let alloc = answer.alloc();
    match args.bytes(place).to_vec(alloc) {
        Ok(bytes) => Bytes::new(bytes),
        Err(_) => {
            answer.lacks();
            Bytes::new(Vec::new(alloc))
        }
    }
}

// The bytes of a vector, which is given back.
fn bytes_back(args: &Arguments, answer: &mut Answer) {
    let held = bytes(args, 0, answer);
    answer.bytes(held.as_slice());
    let is_given_back = held.into_vec().as_slice() == args.bytes(0);
    answer.unless(is_given_back, "another vector is given back");
}

fn bytes_equal(args: &Arguments, answer: &mut Answer) {
    let left = bytes(args, 0, answer);
    let right = bytes(args, 1, answer);
    answer.yes_or_no(left == right);
}

// The alphabet that an argument names: `standard`, or `url` for that of addresses.
fn alphabet(args: &Arguments) -> Alphabet {
    match args.word(0) {
        "standard" => Alphabet::Standard,
        "url" => Alphabet::UrlSafe,
        _ => {
            args.refuse("no such alphabet");
            Alphabet::Standard
        }
    }
}

fn decoded(args: &Arguments, answer: &mut Answer) {
    match decode(answer.alloc(), alphabet(args), args.bytes(1)) {
        Ok(Some(bytes)) => answer.bytes(bytes.as_slice()),
        Ok(None) => answer.word("none"),
        Err(_) => answer.lacks(),
    }
}

// Makes a call that reads a JSON object, which is the last argument.
fn json_answer(name: &str, args: &Arguments, answer: &mut Answer) -> bool {
    let last = match name {
        "json-object" => 0,
        "json-number" | "json-text" | "json-texts" | "json-object-at" => 1,
        "json-number-in" | "json-bytes" => 2,
        _ => return false,
    };
    match json_object(answer.alloc(), args.bytes(last)) {
        Ok(Some(object)) => object_answer(name, args, &object, answer),
        Ok(None) => answer.word("no"),
        Err(_) => answer.lacks(),
    }
    true
}

// Makes a call on an object that was read.
fn object_answer(name: &str, args: &Arguments, object: &Value, answer: &mut Answer) {
    match told(name, args, object, answer) {
        Ok(()) => {}
        Err(FieldFault::Wrong(name)) => {
            answer.word("field");
            answer.shows(&name);
        }
        Err(FieldFault::NoMemory) => answer.lacks(),
    }
}

// Tells what a call finds in an object.
fn told(
    name: &str,
    args: &Arguments,
    object: &Value,
    answer: &mut Answer,
) -> Result<(), FieldFault> {
    let (alloc, field) = (answer.alloc(), args.word(0));
    match name {
        "json-number" => {
            let number = number_at(alloc, field, object)?;
            answer.shows(&number);
        }
        "json-number-in" => {
            let field_in = args.word(1);
            let inner = object_at(alloc, field, object)?;
            let number = number_at(alloc, field_in, inner)?;
            answer.shows(&number);
        }
        "json-text" => {
            let text = text_at(alloc, field, object)?;
            answer.bytes(text.as_bytes());
        }
        "json-bytes" => {
            let bytes = bytes_at(alloc, alphabet(args), args.word(1), object)?;
            answer.bytes(bytes.as_slice());
        }
        "json-object-at" => {
            let _inner = object_at(alloc, field, object)?;
            answer.word("object");
        }
        "json-texts" => texts(field, object, answer)?,
        _ => answer.word("yes"),
    }
    Ok(())
}

// The texts of an array, with a blank between each two.
fn texts(field: &str, object: &Value, answer: &mut Answer) -> Result<(), FieldFault> {
    let texts = texts_at(answer.alloc(), field, object)?;
    for text in &texts {
        answer.word(text);
    }
    Ok(())
}
