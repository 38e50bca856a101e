//! Bytes that are drawn for keys and ids.
ghost use Rattle.std.specs.Prelude.{◌≡◌, ◌⊎◌, ◌<◌, ℕ, false, [], Err, length, slice_index, string_bytes, IfOk, IfErr, OnErr};
ghost use Rattle.port_model.specs.Counts.{CountRose, IsCounted};
ghost use Rattle.port_model.specs.Draws.{Draws};
ghost use Rattle.chunk_files.specs.Zeros.{is_all_zero};
ghost use Rattle.vault_write.specs.Founding.{DrawsSome, DrawsGo, DrawsCm};
ghost use Rattle.vault_write.specs.Slots.{DrewAtMost, DrewId};

use content_writing::PutFault;
use cryptomator_conf::CmDraw;
use gocrypt_conf::GoDraw;
use port_model::Randoms;
use port_model::laws::draws_compose;
use std::alloc::Global;
use vault_names::new_dir_id;

/// What a gocryptfs vault draws: what its configuration is made of, and the key of its root.
#[derive(Clone, Copy)]
pub(crate) struct GoParts {
    pub(crate) draw: GoDraw,
    pub(crate) key: [u8; 16],
}

// Draws so many bytes.
pub(crate) fn draw<const N: usize, R: Randoms>(random: &mut R) -> Result<[u8; N], PutFault>
    ensures drawn { IfOk result (λ bytes. Draws (R.left random.old) (R.left random.new) bytes) }
    ensures size { IfOk result (λ bytes. length bytes ≡ N) }
    ensures small { IfOk result (λ bytes. (place : ℕ) → slice_index bytes place < 256) }
    ensures fault { IfErr result (λ fault. fault ≡ PutFault.Random) }
    ensures cause { OnErr result (CountRose (R.faults random.old) (R.faults random.new)) }
    ensures nothing { OnErr result (Draws (R.left random.old) (R.left random.new) []) }
    ensures counted { IsCounted (R.faults random.old) (R.faults random.new) }
{
    let mut bytes = [0; N];
    match random.fill(&mut bytes) {
        Ok(()) => {
            bytes_are_small(&bytes);
            Ok(bytes)
        }
        Err(_) => Err(PutFault::Random),
    }
}

// A byte is below 256.
fn bytes_are_small(bytes: &[u8])
    ensures { (place : ℕ) → slice_index bytes.now place < 256 }
{}

// Draws sixteen bytes that aren't all zero.
pub(crate) fn draw_some<R: Randoms>(random: &mut R) -> Result<[u8; 16], PutFault>
    ensures draws { DrawsSome (R.left random.old) (R.left random.new) result }
    ensures fault { IfErr result (λ fault. (fault ≡ PutFault.ZeroRandom) ⊎ (fault ≡ PutFault.Random)) }
    ensures drawn { IfOk result (λ bytes. Draws (R.left random.old) (R.left random.new) bytes) }
    ensures sixteen { IfOk result (λ bytes. length bytes ≡ 16) }
    ensures some_bit { IfOk result (λ bytes. is_all_zero bytes ≡ false) }
    ensures cause { result ≡ Err PutFault.Random → CountRose (R.faults random.old) (R.faults random.new) }
    ensures counted { IsCounted (R.faults random.old) (R.faults random.new) }
{
    let bytes = draw::<16, R>(random)?;
    if are_zeros(&bytes) {
        return Err(PutFault::ZeroRandom);
    }
    Ok(bytes)
}

// Draws the id of a new directory of Cryptomator.
pub(crate) fn draw_id<R: Randoms>(alloc: Global, random: &mut R) -> Result<String, PutFault>
    ensures drawn { IfOk result (λ id. DrewId (R.left random.old) (R.left random.new) (string_bytes id)) }
    ensures few { OnErr result (DrewAtMost 16 (R.left random.old) (R.left random.new)) }
    ensures fault { IfErr result (λ fault. (fault ≡ PutFault.Random) ⊎ (fault ≡ PutFault.NoMemory)) }
    ensures cause { result ≡ Err PutFault.Random → CountRose (R.faults random.old) (R.faults random.new) }
    ensures counted { IsCounted (R.faults random.old) (R.faults random.new) }
{
    let bytes = draw::<16, R>(random)?;
    Ok(new_dir_id(alloc, &bytes)?)
}

fn are_zeros(bytes: &[u8]) -> bool
    ensures { result ≡ is_all_zero bytes.now }
{
    bytes.iter().all(|byte| *byte == 0)
}

// What a gocryptfs vault draws, in order.
pub(crate) fn draw_go<R: Randoms>(random: &mut R) -> Result<GoParts, PutFault>
    ensures draws { DrawsGo (R.left random.old) (R.left random.new) result }
    ensures fault { IfErr result (λ fault. (fault ≡ PutFault.ZeroRandom) ⊎ (fault ≡ PutFault.Random)) }
    ensures cause { result ≡ Err PutFault.Random → CountRose (R.faults random.old) (R.faults random.new) }
    ensures counted { IsCounted (R.faults random.old) (R.faults random.new) }
{
    draws_compose();
    let master = draw::<32, R>(random)?;
    let salt = draw::<32, R>(random)?;
    let nonce = draw_some(random)?;
    let key = draw_some(random)?;
    let draw = GoDraw {
        master,
        salt,
        nonce,
    };
    Ok(GoParts { draw, key })
}

// What a Cryptomator vault draws, in order.
pub(crate) fn draw_cm<R: Randoms>(random: &mut R) -> Result<CmDraw, PutFault>
    ensures draws { DrawsCm (R.left random.old) (R.left random.new) result }
    ensures fault { IfErr result (λ fault. fault ≡ PutFault.Random) }
    ensures cause { result ≡ Err PutFault.Random → CountRose (R.faults random.old) (R.faults random.new) }
    ensures counted { IsCounted (R.faults random.old) (R.faults random.new) }
{
    draws_compose();
    let enc = draw::<32, R>(random)?;
    let mac = draw::<32, R>(random)?;
    let salt = draw::<8, R>(random)?;
    let jti = draw::<16, R>(random)?;
    Ok(CmDraw {
        enc,
        mac,
        salt,
        jti,
    })
}
