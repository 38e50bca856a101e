//! `decrypt-file`: decrypts a content file that comes by the input.
ghost use Rattle.std.specs.Prelude.{◌≡◌, ◌+◌, ◌≤◌, ◌<◌, ◌⊎◌, List, ℕ, ⊤, IsTrue, IfOk, IfSome, OnErr, Ok, Option, None, Some, length, true, false};
ghost use Rattle.std.specs.Io.KnownBytes.{IsAtEnd};
ghost use Rattle.port_model.specs.Counts.{CountRose};
ghost use Rattle.open_for_reading.specs.Carrying.{CarriesOut};
ghost use Rattle.open_for_reading.specs.World.{World};
ghost use Rattle.reading_commands.specs.DecryptFile.{DecryptsFile};
ghost use Rattle.reading_commands.specs.Inputs.{TakesAtMost, input_limit};
ghost use Rattle.reading_commands.specs.Decrypts.{TakesNear, TellsOf, Writes, input_reading};
ghost use Rattle.reading_commands.specs.Streaming.{Drains, HasWritten, Outcome};
ghost use Rattle.command_words.specs.declared.commands.Command.TheVariants.{DecryptFile};

use chunk_files::laws::{files_are_what_they_give, given_chunks_come_first, whole_files_end};
use chunk_files::{ChunkBuf, ChunkFault, ContentKeys, Decoder, Step};
use command_answers::Answer;
use folder_model::Folder;
use port_model::{Randoms, Sink, Source, SourceFault};
use std::alloc::Global;
use vault_faults::CONTENT_LIMIT;

/// How `decrypt-file` ends.
#[derive(Clone, Copy, PartialEq, Eq)]
pub enum DecryptEnd {
    /// The whole input was decrypted.
    Done,
    /// Memory was refused.
    OutOfMemory,
    /// The input failed.
    InputFault,
    /// The output failed.
    OutputFault,
    /// The input has this fault.
    Damaged(ChunkFault),
    /// The input is longer than the limit, and has no fault before it.
    TooLong,
}

const PIECE_SIZE: usize = 32_768;

/// Decrypts a gocryptfs content file from the input piece by piece, and writes each chunk as it is opened.
pub fn decrypt_file<F: Folder, R: Randoms, I: Source, O: Sink>(
    alloc: Global,
    key: &[u8; 32],
    folder: &mut F,
    random: &mut R,
    input: &mut I,
    out: &mut O,
) -> Answer
    ensures { CarriesOut (DecryptFile key.now) (DecryptsFile key.now) (λ v. ⊤) result
        (record { told = F.told folder.old; left = I.left input.old; ended = I.ended input.old; taken = O.taken out.old; random = R.left random.old })
        (record { told = F.told folder.new; left = I.left input.new; ended = I.ended input.new; taken = O.taken out.new; random = R.left random.new })
        (CountRose (F.faults folder.old) (F.faults folder.new)) (CountRose (I.faults input.old) (I.faults input.new))
        (CountRose (O.faults out.old) (O.faults out.new)) (CountRose (R.faults random.old) (R.faults random.new)) }
{
    files_are_what_they_give();
    whole_files_end();
    Answer::from(decrypt(alloc, key, input, out))
}

// Decrypts it, and tells how that ended.
fn decrypt<I: Source, O: Sink>(
    alloc: Global,
    key: &[u8; 32],
    input: &mut I,
    out: &mut O,
) -> DecryptEnd
    ensures tells { IfSome (I.left input.old) (λ bytes. TellsOf result (input_reading key.now bytes)) }
    ensures writes { IfSome (I.left input.old) (λ bytes. Writes result (input_reading key.now bytes) (O.taken out.old) (O.taken out.new)) }

    ensures takes { TakesAtMost (input_limit + 1) (I.left input.old) (I.left input.new) }
    ensures near { (result ≡ DecryptEnd.OutputFault) ⊎ ((fault : _) × (result ≡ DecryptEnd.Damaged fault))
        → IfSome (I.left input.old) (λ bytes. TakesNear key.now bytes (I.left input.old) (I.left input.new) (O.taken out.old) (O.taken out.new)) }
    ensures end { result ≡ DecryptEnd.Done → IsTrue (I.ended input.new) × IsAtEnd (I.left input.new) }

    ensures input_fault { result ≡ DecryptEnd.InputFault → CountRose (I.faults input.old) (I.faults input.new) }
    ensures output_fault { result ≡ DecryptEnd.OutputFault → CountRose (O.faults out.old) (O.faults out.new) }
    ensures input_counted { I.faults input.old ≤ I.faults input.new }
    ensures output_counted { O.faults out.old ≤ O.faults out.new }
{
    let mut decoder = match Decoder::start(alloc, ContentKeys::go(key)) {
        Ok(decoder) => decoder,
        Err(_) => return DecryptEnd::OutOfMemory,
    };
    let mut chunk = match ChunkBuf::new(alloc) {
        Ok(chunk) => chunk,
        Err(_) => return DecryptEnd::OutOfMemory,
    };
    given_chunks_come_first();
    stream(&mut decoder, &mut chunk, input, out)
}

// Streams the input through a decoder that was fed nothing.
fn stream<I: Source, O: Sink>(
    decoder: &mut Decoder,
    chunk: &mut ChunkBuf,
    input: &mut I,
    out: &mut O,
) -> DecryptEnd
    requires nothing { decoder.old.taken ≡ 0 }
    requires open { decoder.old.ended ≡ false }
    ensures outcome { (key : List ℕ) → HasWritten key (I.left input.old) (I.left input.old) (O.taken out.old) (O.taken out.old) decoder.old
        → Outcome key (I.left input.old) (I.left input.new) (O.taken out.old) (O.taken out.new) result }
    ensures end { result ≡ DecryptEnd.Done → IsTrue (I.ended input.new) × IsAtEnd (I.left input.new) }
    ensures input_fault { result ≡ DecryptEnd.InputFault → CountRose (I.faults input.old) (I.faults input.new) }
    ensures output_fault { result ≡ DecryptEnd.OutputFault → CountRose (O.faults out.old) (O.faults out.new) }
    ensures input_counted { I.faults input.old ≤ I.faults input.new }
    ensures output_counted { O.faults out.old ≤ O.faults out.new }
{
    let mut fed = 0;
    'pieces: while fed < CONTENT_LIMIT {
        match write_chunks(decoder, chunk, out) {
            Some(answer) => return answer,
            None => {}
        }
        match feed_piece(decoder, input, CONTENT_LIMIT - fed) {
            Ok(0) => return write_rest(decoder, chunk, out),
            Ok(count) => fed += count as u64,
            Err(_) => return DecryptEnd::InputFault,
        }
    }
    stream_end(decoder, chunk, input, out)
}

// Ends with an input of which as much was fed as it may have.
fn stream_end<I: Source, O: Sink>(
    decoder: &mut Decoder,
    chunk: &mut ChunkBuf,
    input: &mut I,
    out: &mut O,
) -> DecryptEnd
    requires all { decoder.old.taken ≡ input_limit }
    requires open { decoder.old.ended ≡ false }
    ensures outcome { (key : List ℕ) (at taken : Option (List ℕ)) → HasWritten key at (I.left input.old) taken (O.taken out.old) decoder.old
        → Outcome key at (I.left input.new) taken (O.taken out.new) result }
    ensures end { result ≡ DecryptEnd.Done → IsTrue (I.ended input.new) × IsAtEnd (I.left input.new) }
    ensures input_fault { result ≡ DecryptEnd.InputFault → CountRose (I.faults input.old) (I.faults input.new) }
    ensures output_fault { result ≡ DecryptEnd.OutputFault → CountRose (O.faults out.old) (O.faults out.new) }
    ensures input_counted { I.faults input.old ≤ I.faults input.new }
    ensures output_counted { O.faults out.old ≤ O.faults out.new }
{
    match write_chunks(decoder, chunk, out) {
        Some(answer) => return answer,
        None => {}
    }
    given_chunks_come_first();
    let mut byte = [0u8; 1];
    match input.take(&mut byte) {
        Ok(0) => {
            decoder.end();
            write_rest(decoder, chunk, out)
        }
        Ok(_) => DecryptEnd::TooLong,
        Err(_) => DecryptEnd::InputFault,
    }
}

// Takes a piece of at most `most` bytes of the input and feeds it, or tells the decoder that the input has
// ended where there is none.
fn feed_piece<I: Source>(
    decoder: &mut Decoder,
    input: &mut I,
    most: u64,
) -> Result<usize, SourceFault>
    requires open { decoder.old.ended ≡ false }
    requires room { length decoder.old.held < 32816 }
    requires some { 0 < most }
    requires within { decoder.old.taken + most ≤ input_limit }
    ensures streams { (key : List ℕ) (at taken taken2 : Option (List ℕ)) → HasWritten key at (I.left input.old) taken taken2 decoder.old
        → HasWritten key at (I.left input.new) taken taken2 decoder.new }
    ensures count { IfOk result (λ n. decoder.new.taken ≡ decoder.old.taken + n) }
    ensures most { IfOk result (λ n. n ≤ most) }
    ensures ended { result ≡ Ok 0 → (decoder.new.ended ≡ true) × IsTrue (I.ended input.new) × IsAtEnd (I.left input.new) }
    ensures still_open { IfOk result (λ n. 0 < n → decoder.new.ended ≡ false) }
    ensures fault { OnErr result (CountRose (I.faults input.old) (I.faults input.new)) }
    ensures nothing { OnErr result (decoder.new ≡ decoder.old) }
    ensures counted { I.faults input.old ≤ I.faults input.new }
{
    let mut piece = [0u8; PIECE_SIZE];
    let size = decoder.room().min(PIECE_SIZE).min(most as usize);
    feed_from(decoder, input, &mut piece[..size])
}

// Takes the next bytes of the input into `piece` and feeds them.
fn feed_from<I: Source>(
    decoder: &mut Decoder,
    input: &mut I,
    piece: &mut [u8],
) -> Result<usize, SourceFault>
    requires open { decoder.old.ended ≡ false }
    requires room { length decoder.old.held + length piece.old ≤ 32816 }
    requires some { 0 < length piece.old }
    requires within { decoder.old.taken + length piece.old ≤ input_limit }
    ensures streams { (key : List ℕ) (at taken taken2 : Option (List ℕ)) → HasWritten key at (I.left input.old) taken taken2 decoder.old
        → HasWritten key at (I.left input.new) taken taken2 decoder.new }
    ensures count { IfOk result (λ n. decoder.new.taken ≡ decoder.old.taken + n) }
    ensures most { IfOk result (λ n. n ≤ length piece.old) }
    ensures ended { result ≡ Ok 0 → (decoder.new.ended ≡ true) × IsTrue (I.ended input.new) × IsAtEnd (I.left input.new) }
    ensures still_open { IfOk result (λ n. 0 < n → decoder.new.ended ≡ false) }
    ensures fault { OnErr result (CountRose (I.faults input.old) (I.faults input.new)) }
    ensures nothing { OnErr result (decoder.new ≡ decoder.old) }
    ensures counted { I.faults input.old ≤ I.faults input.new }
{
    given_chunks_come_first();
    let count = input.take(piece)?;
    if count == 0 {
        decoder.end();
    } else {
        decoder.feed(&piece[..count]);
    }
    Ok(count)
}

// Writes the chunks that are left of an input that has ended.
fn write_rest<O: Sink>(decoder: &mut Decoder, chunk: &mut ChunkBuf, out: &mut O) -> DecryptEnd
    requires { decoder.old.ended ≡ true }
    ensures drains { (key : List ℕ) (at at2 taken : Option (List ℕ)) → HasWritten key at at2 taken (O.taken out.old) decoder.old
        → Drains key at at2 taken (O.taken out.new) (Some result) decoder.new }
    ensures answer { (result ≡ DecryptEnd.Done) ⊎ ((result ≡ DecryptEnd.OutputFault) ⊎ ((fault : _) × (result ≡ DecryptEnd.Damaged fault))) }
    ensures taken { decoder.new.taken ≡ decoder.old.taken }
    ensures ended { decoder.new.ended ≡ true }
    ensures output_fault { result ≡ DecryptEnd.OutputFault → CountRose (O.faults out.old) (O.faults out.new) }
    ensures counted { O.faults out.old ≤ O.faults out.new }
{
    match write_chunks(decoder, chunk, out) {
        Some(answer) => answer,
        None => DecryptEnd::Done,
    }
}

// Writes the chunks that the decoder has to give, and answers where it wants no more bytes.
fn write_chunks<O: Sink>(
    decoder: &mut Decoder,
    chunk: &mut ChunkBuf,
    out: &mut O,
) -> Option<DecryptEnd>
    ensures drains { (key : List ℕ) (at at2 taken : Option (List ℕ)) → HasWritten key at at2 taken (O.taken out.old) decoder.old
        → Drains key at at2 taken (O.taken out.new) result decoder.new }
    ensures answer { IfSome result (λ answer. (answer ≡ DecryptEnd.Done) ⊎ ((answer ≡ DecryptEnd.OutputFault) ⊎ ((fault : _) × (answer ≡ DecryptEnd.Damaged fault)))) }
    ensures done { result ≡ Some DecryptEnd.Done → decoder.old.ended ≡ true }
    ensures wanting { result ≡ None → decoder.old.ended ≡ false }
    ensures room { result ≡ None → length decoder.new.held < 32816 }
    ensures taken { decoder.new.taken ≡ decoder.old.taken }
    ensures ended { decoder.new.ended ≡ decoder.old.ended }
    ensures output_fault { result ≡ Some DecryptEnd.OutputFault → CountRose (O.faults out.old) (O.faults out.new) }
    ensures counted { O.faults out.old ≤ O.faults out.new }
{
    given_chunks_come_first();
    'chunks: loop {
        match decoder.next(chunk) {
            Ok(Step::Chunk(size)) => match out.put(&chunk.bytes()[..size]) {
                Ok(()) => {}
                Err(_) => return Some(DecryptEnd::OutputFault),
            },
            Ok(Step::More) => return None,
            Ok(Step::End) => return Some(DecryptEnd::Done),
            Err(fault) => return Some(DecryptEnd::Damaged(fault)),
        }
    }
}
