//! The words of a line.

/// The two parts of a line at its first blank; the second is empty where there is none.
pub fn cut(line: &str) -> (&str, &str) {
    match line.split_once(' ') {
        Some(parts) => parts,
        None => (line, ""),
    }
}

/// The number up to 2^64-1 that digits write, without a zero in front.
pub fn number(text: &str) -> Option<u64> {
    let digits = text.as_bytes();
    if digits.starts_with(b"0") && digits.len() > 1
        || !digits.iter().all(|mark| mark.is_ascii_digit())
    {
        return None;
    }
    text.parse().ok()
}
