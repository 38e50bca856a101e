ghost use Rattle.std.specs.Prelude.{◌≡◌, ◌+◌, ◌-◌, ◌^◌, ◌<◌, ◌≤◌, true, false, [], ◌∷◌, length, take, IsOk, IfOk, IfErr, OnOk, OnErr, if◌then◌else◌};
ghost use Rattle.port_model.specs.Counts.{IsCounted};
ghost use Rattle.port_model.specs.Draws.{Draws};
ghost use Rattle.chunk_files.specs.Buffers.{ChangesFront, KeepsBehind};
ghost use Rattle.chunk_files.specs.Contents.{is_refused};
ghost use Rattle.chunk_files.specs.DrawFaults.{DrawFails};
ghost use Rattle.chunk_files.specs.Encoding.{GoesOn, HasBegun, begins_bare, begun, one_chunk_later, unbegun};
ghost use Rattle.chunk_files.specs.Encrypt.{IsEncrypted};
ghost use Rattle.chunk_files.specs.Keys.{format_of};

use crate::chunk::seal_chunk;
use crate::chunk_buf::{CHUNK_BUFFER_SIZE, ChunkBuf};
use crate::draw::draw_nonce;
use crate::fault::EncodeFault;
use crate::keys::ContentKeys;
use crate::new_header::make_header;
use crate::told::{Told, untold};
use port_model::Randoms;
use std::marker::Model;

/// An encoder of one content file, chunk by chunk. It draws what its layout draws for a header and for each
/// chunk, and never writes holes.
#[derive(Drop)]
pub struct Encoder {
    keys: ContentKeys,
    told: Told,
    number: u64,
    is_open: bool,
}

impl Model for Encoder {
    ghost use Rattle.std.specs.Prelude.{◌≡◌};
    ghost use Rattle.chunk_files.specs.Encoding.{Encoding};
    ghost use Rattle.chunk_files.specs.Told.{Suits, header_of};

    ghost Value = { Encoding };

    ghost view = { λ e. record { keys = e.keys; header = header_of e.told; number = e.number; is_open = e.is_open } };

    ghost invariant = { λ e. Suits e.told e.keys };
}

/// A file that was begun: its encoder, and the length of its header.
#[derive(Drop)]
pub struct Begun {
    pub encoder: Encoder,
    pub length: usize,
}

impl Encoder {
    /// Begins a file, and puts its header at the front of `out`. An empty gocryptfs file has no bytes and
    /// draws none. It takes no memory.
    pub fn start<R: Randoms>(
        keys: ContentKeys,
        random: &mut R,
        empty: bool,
        out: &mut ChunkBuf,
    ) -> Result<Begun, EncodeFault>
        ensures bare_never_fails { begins_bare keys empty ≡ true → IsOk result }
        ensures bare_draws_nothing { begins_bare keys empty ≡ true → random.new ≡ random.old }
        ensures bare_file { begins_bare keys empty ≡ true → IfOk result (λ b. IsEncrypted keys [] [] (take b.length out.new)) }
        ensures header { begins_bare keys empty ≡ false → IfOk result (λ b. HasBegun keys (R.left random.old) (R.left random.new) b.encoder (take b.length out.new)) }
        ensures length { IfOk result (λ b. b.length ≡ (if begins_bare keys empty then 0 else (format_of keys).header_size)) }
        ensures begun { IfOk result (λ b. b.encoder ≡ begun keys empty b.encoder.header) }
        ensures buffer { begins_bare keys empty ≡ false → OnOk result (length out.new ≡ CHUNK_BUFFER_SIZE) }
        ensures behind { IfOk result (λ b. KeepsBehind b.length out.old out.new) }
        ensures fault_changes_nothing { OnErr result (out.new ≡ out.old) }
        ensures fault { IfErr result (DrawFails (format_of keys) (format_of keys).header_draws (R.left random.old) (R.left random.new) (R.faults random.old) (R.faults random.new)) }
        ensures counted { begins_bare keys empty ≡ false → IsCounted (R.faults random.old) (R.faults random.new) }
    {
        let mut encoder = Encoder::new(keys);
        let length = encoder.begin_under_its_keys(random, empty, out)?;
        Ok(Begun { encoder, length })
    }

    /// An encoder under these keys, of which no file was begun. It takes no memory.
    pub fn new(keys: ContentKeys) -> Encoder
        ensures { result ≡ unbegun keys result.header }
    {
        let told = untold(&keys);
        Encoder {
            keys,
            told,
            number: 0,
            is_open: false,
        }
    }

    /// Begins another file as `start` does, in the place of the one before. Under the same keys their tables
    /// serve again.
    pub fn begin<R: Randoms>(
        &mut self,
        keys: ContentKeys,
        random: &mut R,
        empty: bool,
        out: &mut ChunkBuf,
    ) -> Result<usize, EncodeFault>
        ensures bare_never_fails { begins_bare keys empty ≡ true → IsOk result }
        ensures bare_draws_nothing { begins_bare keys empty ≡ true → random.new ≡ random.old }
        ensures bare_file { begins_bare keys empty ≡ true → IfOk result (λ length. IsEncrypted keys [] [] (take length out.new)) }
        ensures header { begins_bare keys empty ≡ false → IfOk result (λ length. HasBegun keys (R.left random.old) (R.left random.new) self.new (take length out.new)) }
        ensures length { IfOk result (λ length. length ≡ (if begins_bare keys empty then 0 else (format_of keys).header_size)) }
        ensures begun { OnOk result (self.new ≡ begun keys empty self.new.header) }
        ensures unbegun { OnErr result (self.new ≡ unbegun keys self.new.header) }
        ensures buffer { begins_bare keys empty ≡ false → OnOk result (length out.new ≡ CHUNK_BUFFER_SIZE) }
        ensures behind { ChangesFront result out.old out.new }
        ensures fault { IfErr result (DrawFails (format_of keys) (format_of keys).header_draws (R.left random.old) (R.left random.new) (R.faults random.old) (R.faults random.new)) }
        ensures counted { begins_bare keys empty ≡ false → IsCounted (R.faults random.old) (R.faults random.new) }
    {
        self.turn_to(keys);
        self.begin_under_its_keys(random, empty, out)
    }

    // Takes these keys, whose tables are made where they are others.
    fn turn_to(&mut self, keys: ContentKeys)
        ensures { self.new.keys ≡ keys }
    {
        if !self.keys.is_same(&keys) {
            *self = Encoder::new(keys);
        }
    }

    // Begins a file under its keys.
    fn begin_under_its_keys<R: Randoms>(
        &mut self,
        random: &mut R,
        empty: bool,
        out: &mut ChunkBuf,
    ) -> Result<usize, EncodeFault>
        ensures bare_never_fails { begins_bare self.old.keys empty ≡ true → IsOk result }
        ensures bare_draws_nothing { begins_bare self.old.keys empty ≡ true → random.new ≡ random.old }
        ensures bare_file { begins_bare self.old.keys empty ≡ true → IfOk result (λ length. IsEncrypted self.old.keys [] [] (take length out.new)) }
        ensures header { begins_bare self.old.keys empty ≡ false → IfOk result (λ length. HasBegun self.old.keys (R.left random.old) (R.left random.new) self.new (take length out.new)) }
        ensures length { IfOk result (λ length. length ≡ (if begins_bare self.old.keys empty then 0 else (format_of self.old.keys).header_size)) }
        ensures begun { OnOk result (self.new ≡ begun self.old.keys empty self.new.header) }
        ensures unbegun { OnErr result (self.new ≡ unbegun self.old.keys self.new.header) }
        ensures buffer { begins_bare self.old.keys empty ≡ false → OnOk result (length out.new ≡ CHUNK_BUFFER_SIZE) }
        ensures behind { ChangesFront result out.old out.new }
        ensures fault { IfErr result (DrawFails (format_of self.old.keys) (format_of self.old.keys).header_draws (R.left random.old) (R.left random.new) (R.faults random.old) (R.faults random.new)) }
        ensures counted { begins_bare self.old.keys empty ≡ false → IsCounted (R.faults random.old) (R.faults random.new) }
    {
        self.number = 0;
        self.is_open = false;
        if empty && self.keys.layout().empty_has_no_header() {
            return Ok(0);
        }
        let length = make_header(&self.keys, &mut self.told, random, out)?;
        self.is_open = !empty;
        Ok(length)
    }

    /// Encodes the next chunk of a file that was begun and not as empty, puts what is to be stored at the front of `out` and answers
    /// its length. It takes no memory. What was made is a file where each chunk before the last is full; elsewhere the chunk is sealed
    /// all the same.
    pub fn chunk<R: Randoms>(
        &mut self,
        random: &mut R,
        plain: &[u8],
        out: &mut ChunkBuf,
    ) -> Result<usize, EncodeFault>
        requires some { 0 < length plain.now }
        requires at_most { length plain.now ≤ (format_of self.old.keys).full_size }
        requires count { self.old.number < 2 ^ 64 - 1 }
        requires open { self.old.is_open ≡ true }
        ensures goes_on { IfOk result (λ size. GoesOn self.old self.new plain.now (take size out.new)) }
        ensures stored { IfOk result (λ size. take size out.new ≡ (format_of self.old.keys).sealed_chunk self.old.header self.old.number (take (format_of self.old.keys).nonce_size out.new) plain.now) }
        ensures size { IfOk result (λ size. size ≡ (format_of self.old.keys).seal_size + length plain.now) }
        ensures buffer { OnOk result (length out.new ≡ CHUNK_BUFFER_SIZE) }
        ensures behind { ChangesFront result out.old out.new }
        ensures drawn { OnOk result (Draws (R.left random.old) (R.left random.new) (take (format_of self.old.keys).nonce_size out.new)) }
        ensures accepted { OnOk result (is_refused (format_of self.old.keys) (take (format_of self.old.keys).nonce_size out.new) ≡ false) }
        ensures next { OnOk result (self.new ≡ one_chunk_later self.old) }
        ensures fault_changes_nothing { OnErr result (self.new ≡ self.old) }
        ensures fault { IfErr result (DrawFails (format_of self.old.keys) ((format_of self.old.keys).nonce_size ∷ []) (R.left random.old) (R.left random.new) (R.faults random.old) (R.faults random.new)) }
        ensures counted { IsCounted (R.faults random.old) (R.faults random.new) }
    {
        let nonce = draw_nonce(&self.keys, random)?;
        let size = seal_chunk(
            &self.keys,
            &self.told,
            self.number,
            &nonce.bytes[..nonce.size],
            plain,
            out,
        );
        self.number += 1;
        Ok(size)
    }
}
