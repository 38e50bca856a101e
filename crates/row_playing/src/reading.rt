//! What a line of a file says no more than another would.
use row_words::{cut, number};

/// Why a line can't be read, whatever it does.
pub fn line_fault(line: &str) -> Option<&'static str> {
    if line.starts_with([' ', '\t']) || line.ends_with([' ', '\t']) {
        return Some("a blank in front of the line or behind it");
    }
    let (verb, words) = cut(line);
    match verb {
        "=" if words.is_empty() => Some("nothing is expected"),
        "for" if !words.contains(' ') => Some("a name without values"),
        "group" | "end" if !words.is_empty() => Some("a line with too many words"),
        "without" if !words.is_empty() && least_of(words).is_none() => {
            Some("a number of failing calls is from 1 on")
        }
        "def" | "row" | "sweep" if words.is_empty() => Some("a block without a name"),
        _ => None,
    }
}

/// How many calls are to fail at least, by a word of a line `without`.
pub fn least_of(word: &str) -> Option<u64> {
    match number(word) {
        Some(0) => None,
        least => least,
    }
}
