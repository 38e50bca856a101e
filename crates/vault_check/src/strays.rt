//! The strays of a vault: what is found in it that has no place there.
ghost use Rattle.std.specs.Prelude.{◌≡◌, [], IfOk, OnOk};
ghost use Rattle.vault_check.specs.Strays.{is_covered, last_path, moves_number, strays_after, with_stray};

use folder_model::FPath;
use std::alloc::{AllocError, Global};
use vault_walk::Finding;

// The paths of strays, in order: of findings in order those whose paths are moved, but none at or below another.
pub(crate) fn outer_strays(alloc: Global, findings: &[Finding]) -> Result<Vec<FPath>, AllocError>
    ensures { IfOk result (λ strays. strays.items ≡ strays_after [] findings.now) }
{
    let mut strays = Vec::new(alloc);
    for finding in findings {
        add_stray(&mut strays, finding)?;
    }
    Ok(strays)
}

// Adds the path of a finding, if it is moved and isn't at or below the last one.
fn add_stray(strays: &mut Vec<FPath>, finding: &Finding) -> Result<(), AllocError>
    ensures { OnOk result (strays.new.items ≡ with_stray strays.old.items finding.now) }
{
    if is_moved(finding.number) && !is_covered(strays.as_slice(), &finding.at) {
        strays.push(finding.at.copy()?)?;
    }
    Ok(())
}

// Whether a path with a finding of this number is moved.
fn is_moved(number: u8) -> bool
    ensures { result ≡ moves_number number }
{
    matches!(number, 1 | 3 | 4 | 7 | 8 | 10)
}

// Whether a path is at or below the last of these.
fn is_covered(strays: &[FPath], at: &FPath) -> bool
    ensures { result ≡ is_covered (last_path strays.now) at.now }
{
    match strays.last() {
        Some(last) => at.starts_with(last),
        None => false,
    }
}
