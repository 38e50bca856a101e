//! Headers of new files.

ghost use Rattle.std.specs.Prelude.{◌≡◌, ◌∷◌, ◌++◌, [], Bool, ℕ, List, IfOk, IfErr, OnOk, length, take};
ghost use Rattle.port_model.specs.Counts.{IsCounted};
ghost use Rattle.port_model.specs.Draws.{Draws};
ghost use Rattle.chunk_files.specs.Buffers.{ChangesFront};
ghost use Rattle.chunk_files.specs.DrawFaults.{DrawFails};
ghost use Rattle.chunk_files.specs.Encoding.{HasBegun, begun};
ghost use Rattle.chunk_files.specs.Format.{Format};
ghost use Rattle.chunk_files.specs.Gocryptfs.{go_format};
ghost use Rattle.chunk_files.specs.Keys.{Keys, format_of};
ghost use Rattle.chunk_files.specs.Told.{Suits, header_of};

use crate::chunk_buf::{CHUNK_BUFFER_SIZE, ChunkBuf};
use crate::draw::{draw, draw_some};
use crate::fault::EncodeFault;
use crate::header::{CM_HEADER, CTR_HEADER, GO_HEADER, go_header, new_plain};
use crate::keys::{ContentKeys, Layout};
use crate::told::{CtrTold, GcmTold, Told};
use port_model::Randoms;
use port_model::laws::draws_compose;

// Makes a header at the front of `out`, puts what it tells in its place and answers its length.
pub fn make_header<R: Randoms>(
    keys: &ContentKeys,
    told: &mut Told,
    random: &mut R,
    out: &mut ChunkBuf,
) -> Result<usize, EncodeFault>
    requires { Suits told.old keys.now }
    ensures suits { Suits told.new keys.now }
    ensures header { (empty : Bool) → IfOk result (λ length. HasBegun keys.now (R.left random.old) (R.left random.new) (begun keys.now empty (header_of told.new)) (take length out.new)) }
    ensures length { IfOk result (λ length. length ≡ (format_of keys.now).header_size) }
    ensures buffer { OnOk result (length out.new ≡ CHUNK_BUFFER_SIZE) }
    ensures behind { ChangesFront result out.old out.new }
    ensures fault { IfErr result (DrawFails (format_of keys.now) (format_of keys.now).header_draws (R.left random.old) (R.left random.new) (R.faults random.old) (R.faults random.new)) }
    ensures counted { IsCounted (R.faults random.old) (R.faults random.new) }
{
    match told {
        Told::Go(_, id) => make_go(id, random, out),
        Told::CmGcm(file) => make_cm(file, random, out),
        Told::CmCtr(file) => make_ctr(file, keys.mac(), random, out),
    }
}

// A gocryptfs file's header tells its id.
fn make_go<R: Randoms>(
    id: &mut [u8; 16],
    random: &mut R,
    out: &mut ChunkBuf,
) -> Result<usize, EncodeFault>
    ensures header { (keys : Keys) (empty : Bool) → keys.layout ≡ Layout.Go → IfOk result (λ length. HasBegun keys (R.left random.old) (R.left random.new) (begun keys empty (record { key = keys.key; file = id.new })) (take length out.new)) }
    ensures length { IfOk result (λ length. length ≡ GO_HEADER) }
    ensures buffer { OnOk result (length out.new ≡ CHUNK_BUFFER_SIZE) }
    ensures behind { ChangesFront result out.old out.new }
    ensures fault { (key : List ℕ) → IfErr result (DrawFails (go_format key) (16 ∷ []) (R.left random.old) (R.left random.new) (R.faults random.old) (R.faults random.new)) }
    ensures counted { IsCounted (R.faults random.old) (R.faults random.new) }
{
    let drawn = draw_some(random)?;
    out.put_front(&go_header(&drawn));
    *id = drawn;
    Ok(GO_HEADER)
}

// With SIV_GCM a header tells a content key, sealed under the vault's.
fn make_cm<R: Randoms>(
    file: &mut GcmTold,
    random: &mut R,
    out: &mut ChunkBuf,
) -> Result<usize, EncodeFault>
    ensures vault { file.new.vault ≡ file.old.vault }
    ensures header { (keys : Keys) (empty : Bool) → keys.layout ≡ Layout.CmGcm → keys.key ≡ file.old.vault
        → IfOk result (λ length. HasBegun keys (R.left random.old) (R.left random.new) (begun keys empty (record { key = file.new.chunks; file = file.new.nonce })) (take length out.new)) }
    ensures length { IfOk result (λ length. length ≡ CM_HEADER) }
    ensures buffer { OnOk result (length out.new ≡ CHUNK_BUFFER_SIZE) }
    ensures behind { ChangesFront result out.old out.new }
    ensures fault { (f : Format) → IfErr result (DrawFails f (12 ∷ 32 ∷ []) (R.left random.old) (R.left random.new) (R.faults random.old) (R.faults random.new)) }
    ensures counted { IsCounted (R.faults random.old) (R.faults random.new) }
{
    let (nonce, key) = draw_header::<12, R>(random)?;
    let length = out.seal(&file.vault, &[], &nonce, &new_plain(&key));
    file.chunks.rekey(&key);
    file.nonce = nonce;
    Ok(length)
}

// With SIV_CTRMAC too, with a tag of 32 bytes.
fn make_ctr<R: Randoms>(
    file: &mut CtrTold,
    mac: &[u8; 32],
    random: &mut R,
    out: &mut ChunkBuf,
) -> Result<usize, EncodeFault>
    ensures vault { file.new.vault ≡ file.old.vault }
    ensures header { (keys : Keys) (empty : Bool) → keys.layout ≡ Layout.CmCtr → keys.key ≡ file.old.vault → keys.mac ≡ mac.now
        → IfOk result (λ length. HasBegun keys (R.left random.old) (R.left random.new) (begun keys empty (record { key = file.new.chunks; file = file.new.nonce })) (take length out.new)) }
    ensures length { IfOk result (λ length. length ≡ CTR_HEADER) }
    ensures buffer { OnOk result (length out.new ≡ CHUNK_BUFFER_SIZE) }
    ensures behind { ChangesFront result out.old out.new }
    ensures fault { (f : Format) → IfErr result (DrawFails f (16 ∷ 32 ∷ []) (R.left random.old) (R.left random.new) (R.faults random.old) (R.faults random.new)) }
    ensures counted { IsCounted (R.faults random.old) (R.faults random.new) }
{
    let (nonce, key) = draw_header::<16, R>(random)?;
    let length = out.seal_tagged(&file.vault, mac, &[], &nonce, &new_plain(&key));
    file.chunks.renew(&key);
    file.nonce = nonce;
    Ok(length)
}

// Draws a header's nonce, and then the content key.
fn draw_header<const N: usize, R: Randoms>(
    random: &mut R,
) -> Result<([u8; N], [u8; 32]), EncodeFault>
    ensures drawn { IfOk result (λ drawn. Draws (R.left random.old) (R.left random.new) (drawn.0 ++ drawn.1)) }
    ensures nonce { IfOk result (λ drawn. length drawn.0 ≡ N) }
    ensures key { IfOk result (λ drawn. length drawn.1 ≡ 32) }
    ensures fault { (f : Format) → IfErr result (DrawFails f (N ∷ 32 ∷ []) (R.left random.old) (R.left random.new) (R.faults random.old) (R.faults random.new)) }
    ensures counted { IsCounted (R.faults random.old) (R.faults random.new) }
{
    draws_compose();
    let nonce = draw::<N, R>(random)?;
    let key = draw::<32, R>(random)?;
    Ok((nonce, key))
}
