//! The random bytes of the machine.

ghost use Rattle.std.specs.Prelude.{◌≡◌, None};

use host_places::fill;
use port_model::{RandomFault, Randoms};
use std::fs;
use std::os::unix::fs::FileTypeExt;
use std::rt::Runtime;

const PLACE: &str = "/dev/urandom";

/// The random bytes that the machine gives at `/dev/urandom`, which is opened at the first call. It tells nothing of them.
#[derive(Drop)]
pub struct HostRandoms<R: Runtime> {
    rt: R,
    file: Option<R::File>,
    faults: u64,
}

impl<R: Runtime> HostRandoms<R> {
    /// A random source that has failed at no call yet. It takes no memory.
    pub fn new(rt: R) -> HostRandoms<R>
        ensures { ⟦<HostRandoms<R> as Randoms>⟧.faults result ≡ 0 }
    {
        HostRandoms {
            rt,
            file: None,
            faults: 0,
        }
    }
}

impl<R: Runtime> Randoms for HostRandoms<R> {
    ghost left = { λ r. None };

    ghost faults = { λ r. r.faults };

    fn fill(&mut self, out: &mut [u8]) -> Result<(), RandomFault> {
        let faults = self.faults;
        match draw(&self.rt, &mut self.file, out) {
            Ok(()) => Ok(()),
            Err(fault) => {
                self.faults = faults.saturating_add(1);
                Err(fault)
            }
        }
    }
}

// Opens the device of random bytes, if it is one.
fn opened<R: Runtime>(rt: &R) -> Result<R::File, RandomFault> {
    match fs::metadata(rt, PLACE) {
        Ok(metadata) if metadata.file_type().is_char_device() => {}
        _ => return Err(RandomFault),
    }
    match fs::open(rt, PLACE) {
        Ok(open) => Ok(open),
        Err(_) => Err(RandomFault),
    }
}

// Fills `out` with bytes of the file, opened first where it isn't yet.
fn draw<R: Runtime>(rt: &R, file: &mut Option<R::File>, out: &mut [u8]) -> Result<(), RandomFault> {
    let mut open = match file.take() {
        Some(open) => open,
        None => opened(rt)?,
    };
    match fill(&mut open, out) {
        Ok(count) if count == out.len() => {
            *file = Some(open);
            Ok(())
        }
        _ => Err(RandomFault),
    }
}
