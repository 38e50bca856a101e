//! What words ask for.
ghost use Rattle.std.specs.Prelude.{◌≡◌, IfOk, IfSome, drop, map, option_map, string_bytes};
ghost use Rattle.command_words.specs.Commands.{first};
ghost use Rattle.command_words.specs.Requests.{request_of};
ghost use Rattle.command_words.specs.Rows.{kinds_of, row_of_code};
ghost use Rattle.command_words.specs.Values.{folder_value};
ghost use Rattle.command_words.specs.Written.{AllWritten};

use crate::reading::values_of_words;
use crate::rows::{Row, row_named};
use crate::values::Value;
use folder_model::FPath;
use std::alloc::{AllocError, Global};
use std::marker::Model;

/// A command's row, and what the words behind its name write.
#[derive(Drop)]
pub struct Request {
    pub(crate) row: Row,
    pub(crate) values: Vec<Value>,
}

impl Model for Request {
    ghost use Rattle.command_words.specs.Requests.{Request};
    ghost use Rattle.command_words.specs.Rows.{row_of_code};

    ghost Value = { Request };

    ghost view = { λ request. record { row = row_of_code request.row; values = request.values.items } };
}

impl Request {
    /// What these words ask for, or `None` where they make no command.
    pub fn read(alloc: Global, words: &[String]) -> Result<Option<Request>, AllocError>
        ensures is { IfOk result (λ request. request ≡ request_of (map string_bytes words.now)) }
        ensures written { IfOk result (λ request. IfSome request (λ it. AllWritten (kinds_of it.row) it.values)) }
    {
        let Some((name, rest)) = words.split_first() else {
            return Ok(None);
        };
        let Some(row) = row_named(name.as_str()) else {
            return Ok(None);
        };
        match values_of_words(alloc, &row, rest)? {
            Some(values) => Ok(Some(Request { row, values })),
            None => Ok(None),
        }
    }

    /// The command's row.
    pub fn row(&self) -> Row
        ensures { row_of_code result ≡ self.now.row }
    {
        self.row
    }

    /// The folder path that the value with this number is.
    pub fn folder(&self, number: usize) -> Option<&FPath>
        ensures { option_map (λ path. path.now) result ≡ folder_value (first (drop number self.now.values)) }
    {
        match self.values.get(number) {
            Some(Value::Folder(path)) => Some(path),
            _ => None,
        }
    }
}
