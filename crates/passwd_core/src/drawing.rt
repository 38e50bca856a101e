//! What is drawn for a new file of keys.
ghost use Rattle.std.specs.Prelude.{◌≡◌, ◌<◌, ℕ, [], Err, length, slice_index, IfOk, IfErr, OnErr};
ghost use Rattle.port_model.specs.Counts.{Blames};
ghost use Rattle.port_model.specs.Draws.{Draws};
ghost use Rattle.chunk_files.specs.Zeros.{is_all_zero};
ghost use Rattle.passwd_core.specs.Drawing.{AreBytes};
ghost use Rattle.passwd_core.specs.Steps.{DrawsGo};

use crate::fault::PassFault;
use port_model::Randoms;
use port_model::laws::draws_compose;

// What a gocryptfs vault draws.
#[derive(Clone, Copy)]
pub(crate) struct GoFresh {
    pub(crate) salt: [u8; 32],
    pub(crate) nonce: [u8; 16],
}

// Draws so many bytes.
pub(crate) fn draw<const N: usize, R: Randoms>(random: &mut R) -> Result<[u8; N], PassFault>
    ensures drawn { IfOk result (λ bytes. Draws (R.left random.old) (R.left random.new) bytes) }
    ensures bytes { IfOk result (λ bytes. AreBytes N bytes) }
    ensures fault { IfErr result (λ fault. fault ≡ PassFault.Random) }
    ensures nothing { OnErr result (Draws (R.left random.old) (R.left random.new) []) }
    ensures blames { Blames (result ≡ Err PassFault.Random) (R.faults random.old) (R.faults random.new) }
{
    let mut bytes = [0; N];
    match random.fill(&mut bytes) {
        Ok(()) => {
            bytes_are_small(&bytes);
            Ok(bytes)
        }
        Err(_) => Err(PassFault::Random),
    }
}

// A byte is below 256.
fn bytes_are_small(bytes: &[u8])
    ensures { (place : ℕ) → slice_index bytes.now place < 256 }
{}

fn are_zeros(bytes: &[u8]) -> bool
    ensures { result ≡ is_all_zero bytes.now }
{
    bytes.iter().all(|byte| *byte == 0)
}

// Draws a salt, and then a nonce that isn't zeros.
pub(crate) fn draw_go<R: Randoms>(random: &mut R) -> Result<GoFresh, PassFault>
    ensures draws { DrawsGo (R.left random.old) (R.left random.new) result }
    ensures blames { Blames (result ≡ Err PassFault.Random) (R.faults random.old) (R.faults random.new) }
{
    draws_compose();
    let salt = draw::<32, R>(random)?;
    let nonce = draw::<16, R>(random)?;
    if are_zeros(&nonce) {
        return Err(PassFault::ZeroRandom);
    }
    Ok(GoFresh { salt, nonce })
}
