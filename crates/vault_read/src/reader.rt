//! Reading a content file chunk by chunk.
ghost use Rattle.std.specs.Prelude.{◌≡◌, ◌+◌, ◌≤◌, ◌<◌, ℕ, List, IfOk, IfErr, OnOk, OnErr, Ok, Err, true, false, length};
ghost use Rattle.chunk_files.specs.Decoding.{started, IsPlaced};
ghost use Rattle.folder_spec.specs.View.{FileOf};
ghost use Rattle.folder_spec.specs.Seen.{IfSeen, ShowsFile};
ghost use Rattle.folder_model.specs.Answers.{CountsAbove, OnlyLooks};
ghost use Rattle.vault_spec.specs.Vault.{format_of};
ghost use Rattle.vault_read.specs.Contents.{limited_reading, Suits, IsBeingRead, still, Gives, IsReaderFault};
ghost use Rattle.vault_faults.specs.Limits.{content_limit};
ghost use Rattle.vault_read.specs.Reading.{AnswersGiven, IsInStep, FeedsOn, GivesGiven, GoesOn};

use crate::vault::Vault;
use chunk_files::{ChunkBuf, ChunkFault, Decoder, Step};
use folder_model::{FPath, Folder};
use folder_spec::FolderFault;
use std::alloc::{AllocError, Global};
use std::marker::Model;
use vault_faults::{CONTENT_LIMIT, CatFault, Limit};

/// A reader of one content file, which gives its chunks in order.
///
/// Contracts see it as the file's path and what its decoder holds.
#[derive(Drop)]
pub struct ContentReader {
    at: FPath,
    decoder: Decoder,
    taken: u64,
}

impl Model for ContentReader {
    ghost use Rattle.vault_read.specs.Contents.{Reader};
    ghost use Rattle.vault_read.specs.Reading.{IsInStep};

    ghost Value = { Reader };

    ghost view = { λ reader. record { at = reader.at; decoding = reader.decoder } };

    ghost invariant = { λ reader. IsInStep reader.taken reader.decoder };
}

impl ContentReader {
    /// A reader of the content file at a path of the folder, of which nothing was read. It takes all the memory that reading takes,
    /// but for the path in a fault.
    pub fn start(alloc: Global, vault: &Vault, at: &FPath) -> Result<ContentReader, AllocError>
        ensures reader { IfOk result (λ reader. reader ≡ record { at = at.now; decoding = started (format_of vault.now.vault).content }) }
        ensures still { IfOk result (λ reader. (bytes : List ℕ) → still reader.decoding bytes ≡ limited_reading (format_of vault.now.vault).content bytes) }
        ensures suits { IfOk result (λ reader. (bytes : List ℕ) → Suits reader.decoding bytes) }
    {
        let at = at.copy()?;
        let decoder = Decoder::start(alloc, vault.content_keys())?;
        Ok(ContentReader {
            at,
            decoder,
            taken: 0,
        })
    }

    /// Goes on with the content file at another path of the folder, of which nothing was read. It takes no memory but for the path. Of
    /// the same vault its keys' tables serve again.
    pub fn turn_to(&mut self, vault: &Vault, at: &FPath) -> Result<(), AllocError>
        ensures reader { OnOk result (self.new ≡ record { at = at.now; decoding = started (format_of vault.now.vault).content }) }
        ensures still { OnOk result ((bytes : List ℕ) → still self.new.decoding bytes ≡ limited_reading (format_of vault.now.vault).content bytes) }
        ensures suits { OnOk result ((bytes : List ℕ) → Suits self.new.decoding bytes) }
        ensures unchanged { OnErr result (self.new ≡ self.old) }
    {
        self.at = at.copy()?;
        self.decoder.restart(vault.content_keys());
        self.taken = 0;
        Ok(())
    }

    /// Puts the next chunk that has bytes at the front of `out`, and answers how many there are: 0 at the file's end. After the end,
    /// after a damaged chunk and past the limit of 2^40 bytes it answers the same again. After another fault it goes on.
    ///
    /// The file has to stay as it is while it is read.
    pub fn next<F: Folder>(&mut self, folder: &mut F, out: &mut ChunkBuf) -> Result<usize, CatFault>
        requires { IfSeen (F.told folder.old) (λ v. IsBeingRead v self.old.at self.old.decoding) }
        ensures looks { OnlyLooks (F.told folder.old) (F.told folder.new) (result ≡ Err CatFault.Failed) (F.faults folder.old) (F.faults folder.new) }
        ensures at { self.new.at ≡ self.old.at }
        ensures keys { self.new.decoding.keys ≡ self.old.decoding.keys }
        ensures suits { IfSeen (F.told folder.old) (λ v. IsBeingRead v self.new.at self.new.decoding) }
        ensures gives { IfSeen (F.told folder.old) (λ v. (bytes : List ℕ) → v self.old.at ≡ FileOf bytes
            → Gives self.old.at result out.new (still self.old.decoding bytes) (still self.new.decoding bytes)) }
        ensures size { IfOk result (λ n. n ≤ length out.new) }
        ensures number { IfOk result (λ n. 0 < n → self.old.decoding.number < self.new.decoding.number) }
        ensures few { self.new.decoding.number ≤ content_limit }
        ensures fault { IfErr result (λ fault. IsReaderFault self.old.at fault) }
    {
        let given = next_given(folder, &self.at, &mut self.decoder, &mut self.taken, out)?;
        answer_of(&self.at, given)
    }
}

// What a decoder gives of a file.
enum Given {
    // The next chunk that has bytes, so many.
    Bytes(usize),
    End,
    Damage(ChunkFault),
    // The file has more bytes than are read.
    PastLimit,
}

// What a reader of the file at a path answers to what its decoder gave.
fn answer_of(at: &FPath, given: Given) -> Result<usize, CatFault>
    ensures { AnswersGiven at.now given result }
{
    match given {
        Given::Bytes(count) => Ok(count),
        Given::End => Ok(0),
        Given::Damage(fault) => Err(CatFault::Damaged(at.copy()?, fault)),
        Given::PastLimit => Err(CatFault::Limit(Limit::Length(at.copy()?))),
    }
}

// The next chunk that has bytes, where a file is read on as the decoder wants it.
fn next_given<F: Folder>(
    folder: &mut F,
    at: &FPath,
    decoder: &mut Decoder,
    taken: &mut u64,
    out: &mut ChunkBuf,
) -> Result<Given, FolderFault>
    requires in_step { IsInStep taken.old decoder.old }
    requires file { IfSeen (F.told folder.old) (λ v. IsBeingRead v at.now decoder.old) }
    ensures told { F.told folder.new ≡ F.told folder.old }
    ensures in_step { IsInStep taken.new decoder.new }
    ensures keys { decoder.new.keys ≡ decoder.old.keys }
    ensures gives { IfSeen (F.told folder.old) (λ v. (bytes : List ℕ) → v at.now ≡ FileOf bytes → Suits decoder.old bytes
        → GivesGiven bytes result out.new decoder.old decoder.new) }
    ensures size { (n : ℕ) → result ≡ Ok (Given.Bytes n) → (0 < n) × (n ≤ length out.new) × (decoder.old.number < decoder.new.number) }
    ensures placed { IsPlaced decoder.new }
    ensures counts { CountsAbove (F.faults folder.old) (F.faults folder.new) result }
{
    'steps: loop {
        match decoder.next(out) {
            Ok(Step::Chunk(0)) => {}
            Ok(Step::Chunk(count)) => return Ok(Given::Bytes(count)),
            Ok(Step::More) => {
                if !read_on(folder, at, decoder, taken, out)? {
                    return Ok(Given::PastLimit);
                }
            }
            Ok(Step::End) => return Ok(Given::End),
            Err(fault) => return Ok(Given::Damage(fault)),
        }
    }
}

// Reads the next bytes of a file into a decoder that wants more, and tells it where the file has ended behind them. It answers false
// where the file goes on past the limit. The bytes pass through `spare`.
fn read_on<F: Folder>(
    folder: &mut F,
    at: &FPath,
    decoder: &mut Decoder,
    taken: &mut u64,
    spare: &mut ChunkBuf,
) -> Result<bool, FolderFault>
    requires open { decoder.old.ended ≡ false }
    requires room { length decoder.old.held < 32816 }
    requires in_step { IsInStep taken.old decoder.old }
    requires file { IfSeen (F.told folder.old) (λ v. ShowsFile v at.now) }
    ensures told { F.told folder.new ≡ F.told folder.old }
    ensures in_step { IsInStep taken.new decoder.new }
    ensures reads { IfSeen (F.told folder.old) (λ v. (bytes : List ℕ) → v at.now ≡ FileOf bytes → Suits decoder.old bytes → FeedsOn bytes decoder.old decoder.new) }
    ensures goes_on { result ≡ Ok true → GoesOn decoder.old decoder.new }
    ensures past { result ≡ Ok false → (decoder.new ≡ decoder.old) × (decoder.old.taken ≡ content_limit)
        × (IfSeen (F.told folder.old) (λ v. (bytes : List ℕ) → v at.now ≡ FileOf bytes → content_limit < length bytes)) }
    ensures fault { OnErr result (decoder.new ≡ decoder.old) }
    ensures number { decoder.new.number ≡ decoder.old.number }
    ensures keys { decoder.new.keys ≡ decoder.old.keys }
    ensures counts { CountsAbove (F.faults folder.old) (F.faults folder.new) result }
{
    if *taken == CONTENT_LIMIT {
        return has_ended(folder, at, decoder, *taken);
    }
    let most = CONTENT_LIMIT - *taken;
    let size = decoder.room().min(most as usize);
    let piece = spare.bytes_mut();
    read_piece(folder, at, decoder, taken, &mut piece[..size])?;
    Ok(true)
}

// Whether a file ends behind the bytes read, as many as are read of one. If so, the decoder is told.
fn has_ended<F: Folder>(
    folder: &mut F,
    at: &FPath,
    decoder: &mut Decoder,
    taken: u64,
) -> Result<bool, FolderFault>
    requires open { decoder.old.ended ≡ false }
    requires taken { taken ≡ decoder.old.taken }
    requires all { taken ≡ content_limit }
    requires file { IfSeen (F.told folder.old) (λ v. ShowsFile v at.now) }
    ensures told { F.told folder.new ≡ F.told folder.old }
    ensures taken { decoder.new.taken ≡ decoder.old.taken }
    ensures reads { IfSeen (F.told folder.old) (λ v. (bytes : List ℕ) → v at.now ≡ FileOf bytes → Suits decoder.old bytes → FeedsOn bytes decoder.old decoder.new) }
    ensures goes_on { result ≡ Ok true → GoesOn decoder.old decoder.new }
    ensures past { result ≡ Ok false → (decoder.new ≡ decoder.old)
        × (IfSeen (F.told folder.old) (λ v. (bytes : List ℕ) → v at.now ≡ FileOf bytes → content_limit < length bytes)) }
    ensures fault { OnErr result (decoder.new ≡ decoder.old) }
    ensures number { decoder.new.number ≡ decoder.old.number }
    ensures keys { decoder.new.keys ≡ decoder.old.keys }
    ensures counts { CountsAbove (F.faults folder.old) (F.faults folder.new) result }
{
    let mut byte = [0u8; 1];
    if folder.read(at, taken, &mut byte)? > 0 {
        return Ok(false);
    }
    decoder.end();
    Ok(true)
}

// Reads the next bytes of a file into `piece` and feeds them, and tells the decoder that the file has ended where they don't fill it.
fn read_piece<F: Folder>(
    folder: &mut F,
    at: &FPath,
    decoder: &mut Decoder,
    taken: &mut u64,
    piece: &mut [u8],
) -> Result<(), FolderFault>
    requires open { decoder.old.ended ≡ false }
    requires room { length decoder.old.held + length piece.old ≤ 32816 }
    requires some { 0 < length piece.old }
    requires taken { taken.old ≡ decoder.old.taken }
    requires within { taken.old + length piece.old ≤ content_limit }
    requires file { IfSeen (F.told folder.old) (λ v. ShowsFile v at.now) }
    ensures told { F.told folder.new ≡ F.told folder.old }
    ensures in_step { IsInStep taken.new decoder.new }
    ensures reads { IfSeen (F.told folder.old) (λ v. (bytes : List ℕ) → v at.now ≡ FileOf bytes → Suits decoder.old bytes → FeedsOn bytes decoder.old decoder.new) }
    ensures goes_on { OnOk result (GoesOn decoder.old decoder.new) }
    ensures fault { OnErr result (decoder.new ≡ decoder.old) }
    ensures number { decoder.new.number ≡ decoder.old.number }
    ensures keys { decoder.new.keys ≡ decoder.old.keys }
    ensures counts { CountsAbove (F.faults folder.old) (F.faults folder.new) result }
{
    let count = folder.read(at, *taken, piece)?;
    decoder.feed(&piece[..count]);
    *taken += count as u64;
    if count < piece.len() {
        decoder.end();
    }
    Ok(())
}
