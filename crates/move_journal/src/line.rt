//! The values that the lines of a journal hold.
ghost use Rattle.std.specs.Prelude.{◌≡◌, ◌≢◌, ◌<◌, ◌≤◌, ℕ, List, ◌∷◌, ◌++◌, length, slice_index, IfOk, MatchOption, IsTrue, decimal};
ghost use Rattle.hex.specs.Hex.{encode_lower};
ghost use Rattle.folder_spec.specs.Path.{Path};
ghost use Rattle.folder_model.specs.Text.{IsParsed, text_of};
ghost use Rattle.move_journal.specs.Journal.{IsDigest};
ghost use Rattle.move_journal.specs.Lines.{has_no_newline};

use folder_model::{FPath, FPathFault};
use hex::FromHex;
use std::alloc::{AllocError, Global};

// What comes after the front.
pub(crate) fn rest_after<'a>(text: &'a [u8], front: &[u8]) -> Option<&'a [u8]>
    ensures { MatchOption result ((rest : List ℕ) → text.now ≢ front.now ++ rest) (λ rest. text.now ≡ front.now ++ rest.now) }
{
    text.strip_prefix(front)
}

fn newline_place(text: &[u8]) -> Option<usize>
    ensures { MatchOption result ((k : ℕ) → k < length text.now → slice_index text.now k ≢ 10) (λ place. (place < length text.now) × (slice_index text.now place ≡ 10) × ((k : ℕ) → k < place → slice_index text.now k ≢ 10)) }
{
    for (place, byte) in text.iter().enumerate() {
        if *byte == b'\n' {
            return Some(place);
        }
    }
    None
}

// The first line, and what comes after its newline.
pub(crate) fn next_line(text: &[u8]) -> Option<(&[u8], &[u8])>
    ensures { MatchOption result ((line rest : List ℕ) → text.now ≢ line ++ 10 ∷ rest) (λ found. (text.now ≡ found.0.now ++ 10 ∷ found.1.now) × IsTrue (has_no_newline found.0.now)) }
{
    let Some(end) = newline_place(text) else {
        return None;
    };
    Some((&text[..end], &text[end + 1..]))
}

// What comes between the front and the next newline, and after it.
pub(crate) fn next_value<'a>(text: &'a [u8], front: &[u8]) -> Option<(&'a [u8], &'a [u8])>
    ensures { MatchOption result ((value rest : List ℕ) → text.now ≢ front.now ++ (value ++ 10 ∷ rest)) (λ found. (text.now ≡ front.now ++ (found.0.now ++ 10 ∷ found.1.now)) × IsTrue (has_no_newline found.0.now)) }
{
    let after_front = rest_after(text, front)?;
    let Some(found) = next_line(after_front) else {
        return None;
    };
    Some(found)
}

// The path whose text is the value.
pub(crate) fn path_in(alloc: Global, value: &[u8]) -> Result<Option<FPath>, AllocError>
    ensures { IfOk result (λ found. MatchOption found ((path : Path) → IsParsed path → value.now ≢ text_of path) (λ path. IsParsed path × (value.now ≡ text_of path))) }
{
    let Ok(text) = std::str::from_utf8(value) else {
        return Ok(None);
    };
    match FPath::parse(alloc, text) {
        Ok(path) => Ok(Some(path)),
        Err(FPathFault::BadPath) => Ok(None),
        Err(FPathFault::NoMemory) => Err(AllocError),
    }
}

// The number of at most 200,000 whose decimal text is the value.
pub(crate) fn items_in(alloc: Global, value: &[u8]) -> Result<Option<u64>, AllocError>
    ensures { IfOk result (λ found. MatchOption found ((items : ℕ) → items ≤ 200000 → value.now ≢ decimal items) (λ items. (items ≤ 200000) × (value.now ≡ decimal items))) }
{
    let Ok(text) = std::str::from_utf8(value) else {
        return Ok(None);
    };
    let Ok(items) = text.parse::<u64>() else {
        return Ok(None);
    };
    if items > 200_000 {
        return Ok(None);
    }
    let shortest = items.to_string(alloc)?;
    if shortest.as_str() == text {
        Ok(Some(items))
    } else {
        Ok(None)
    }
}

// The 32 bytes whose lower-case hex text is the value.
pub(crate) fn plan_in(value: &[u8]) -> Option<[u8; 32]>
    ensures { MatchOption result ((plan : List ℕ) → IsDigest plan → value.now ≢ encode_lower plan) (λ plan. IsDigest plan × (value.now ≡ encode_lower plan)) }
{
    let Ok(plan) = <[u8; 32] as FromHex>::from_hex(value) else {
        return None;
    };
    let mut digits = [0u8; 64];
    let _ = hex::encode_to_slice(plan.as_slice(), &mut digits);
    if digits.as_slice() == value {
        Some(plan)
    } else {
        None
    }
}
