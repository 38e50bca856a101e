//! What is compared, and what is noted of it: nothing exactly where it is right.
ghost use Rattle.std.specs.Prelude.{◌≡◌, ◌≢◌, ◌≤◌, ◌<◌, [], IfOk, string_bytes};

use std::alloc::{AllocError, Global};

/// Compares a line that was said behind the line `last` with the one that is expected.
pub fn compare(
    alloc: Global,
    last: &str,
    at: &str,
    expected: &str,
    found: &str,
) -> Result<String, AllocError>
    ensures right { expected.now ≡ found.now → IfOk result (λ notes. string_bytes notes ≡ []) }
    ensures wrong { expected.now ≢ found.now → IfOk result (λ notes. string_bytes notes ≢ []) }
{
    if expected == found {
        return Ok(String::new(alloc));
    }
    format!(in alloc; "  at {last}\n  expected: {expected} ({at})\n  found: {found}\n")
}

/// Notes that no line was said behind the line `last` where one is expected.
pub fn compare_missing(
    alloc: Global,
    last: &str,
    at: &str,
    expected: &str,
) -> Result<String, AllocError>
    ensures { IfOk result (λ notes. string_bytes notes ≢ []) }
{
    format!(in alloc; "  at {last}\n  expected: {expected} ({at})\n  found: no more lines\n")
}

/// Notes that something else was found at a line than what is expected there.
pub fn note(alloc: Global, last: &str, expected: &str, found: &str) -> Result<String, AllocError>
    ensures { IfOk result (λ notes. string_bytes notes ≢ []) }
{
    format!(in alloc; "  at {last}\n  expected: {expected}\n  found: {found}\n")
}

/// Compares what the plays of a sweep come to, of which so many failed, with what is expected, of which so many at least are to fail. It
/// begins at `at`.
pub fn compare_groups(
    alloc: Global,
    at: &str,
    expected: &str,
    found: &str,
    least: u64,
    failed: u64,
) -> Result<String, AllocError>
    ensures right { expected.now ≡ found.now → least ≤ failed → IfOk result (λ notes. string_bytes notes ≡ []) }
    ensures wrong { expected.now ≢ found.now → IfOk result (λ notes. string_bytes notes ≢ []) }
    ensures few { failed < least → IfOk result (λ notes. string_bytes notes ≢ []) }
{
    if expected == found && least <= failed {
        return Ok(String::new(alloc));
    }
    format!(in alloc;
        "  at {at}\n  expected, with at least {least} failing:\n{expected}  found, with {failed} failing:\n{found}"
    )
}
