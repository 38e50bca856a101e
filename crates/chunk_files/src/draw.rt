//! Draws for headers and nonces.

ghost use Rattle.std.specs.Prelude.{◌≡◌, ◌≤◌, ◌<◌, ℕ, List, [], ◌∷◌, IfOk, IfErr, false, length, take};
ghost use Rattle.port_model.specs.Counts.{IsCounted};
ghost use Rattle.port_model.specs.Draws.{Draws};
ghost use Rattle.chunk_files.specs.Contents.{is_refused};
ghost use Rattle.chunk_files.specs.DrawFaults.{DrawFails};
ghost use Rattle.chunk_files.specs.Format.{Format};
ghost use Rattle.chunk_files.specs.Gocryptfs.{go_format};
ghost use Rattle.chunk_files.specs.Keys.{format_of};
ghost use Rattle.chunk_files.specs.Zeros.{is_all_zero};

use crate::fault::EncodeFault;
use crate::keys::{ContentKeys, Layout};
use crate::zeros::all_zero;
use port_model::Randoms;

// Draws so many bytes.
pub fn draw<const N: usize, R: Randoms>(random: &mut R) -> Result<[u8; N], EncodeFault>
    ensures drawn { IfOk result (λ bytes. Draws (R.left random.old) (R.left random.new) bytes) }
    ensures size { IfOk result (λ bytes. length bytes ≡ N) }
    ensures random { IfErr result (λ fault. fault ≡ EncodeFault.Random) }
    ensures fault { (f : Format) (sizes : List ℕ) → IfErr result (DrawFails f (N ∷ sizes) (R.left random.old) (R.left random.new) (R.faults random.old) (R.faults random.new)) }
    ensures counted { IsCounted (R.faults random.old) (R.faults random.new) }
{
    let mut bytes = [0; N];
    match random.fill(&mut bytes) {
        Ok(()) => Ok(bytes),
        Err(_) => Err(EncodeFault::Random),
    }
}

/// A nonce at the front of sixteen bytes, and its length.
#[derive(Drop)]
pub struct Nonce {
    pub bytes: [u8; 16],
    pub size: usize,
}

// Draws a chunk's nonce.
pub fn draw_nonce<R: Randoms>(keys: &ContentKeys, random: &mut R) -> Result<Nonce, EncodeFault>
    ensures drawn { IfOk result (λ nonce. Draws (R.left random.old) (R.left random.new) (take nonce.size nonce.bytes)) }
    ensures size { IfOk result (λ nonce. length (take nonce.size nonce.bytes) ≡ (format_of keys.now).nonce_size) }
    ensures few { IfOk result (λ nonce. nonce.size ≤ 16) }
    ensures some { IfOk result (λ nonce. 0 < nonce.size) }
    ensures accepted { IfOk result (λ nonce. is_refused (format_of keys.now) (take nonce.size nonce.bytes) ≡ false) }
    ensures fault { IfErr result (DrawFails (format_of keys.now) ((format_of keys.now).nonce_size ∷ []) (R.left random.old) (R.left random.new) (R.faults random.old) (R.faults random.new)) }
    ensures counted { IsCounted (R.faults random.old) (R.faults random.new) }
{
    match keys.layout() {
        Layout::Go => {
            let bytes = draw_some(random)?;
            Ok(Nonce { bytes, size: 16 })
        }
        Layout::CmGcm => {
            let nonce = draw::<12, R>(random)?;
            Ok(Nonce {
                bytes: padded(&nonce),
                size: 12,
            })
        }
        Layout::CmCtr => {
            let bytes = draw::<16, R>(random)?;
            Ok(Nonce { bytes, size: 16 })
        }
    }
}

// Twelve bytes at the front of sixteen.
fn padded(nonce: &[u8; 12]) -> [u8; 16]
    ensures { take 12 result ≡ nonce.now }
{
    let mut bytes = [0; 16];
    bytes[..12].copy_from_slice(nonce);
    bytes
}

// Draws sixteen bytes that aren't all zero.
pub fn draw_some<R: Randoms>(random: &mut R) -> Result<[u8; 16], EncodeFault>
    ensures drawn { IfOk result (λ bytes. Draws (R.left random.old) (R.left random.new) bytes) }
    ensures sixteen { IfOk result (λ bytes. length bytes ≡ 16) }
    ensures some_bit { IfOk result (λ bytes. is_all_zero bytes ≡ false) }
    ensures fault { (key : List ℕ) → IfErr result (DrawFails (go_format key) (16 ∷ []) (R.left random.old) (R.left random.new) (R.faults random.old) (R.faults random.new)) }
    ensures counted { IsCounted (R.faults random.old) (R.faults random.new) }
{
    let bytes = draw::<16, R>(random)?;
    if all_zero(&bytes) {
        return Err(EncodeFault::ZeroRandom);
    }
    Ok(bytes)
}
