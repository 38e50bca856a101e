//! Laws of the definitions. Each function computes nothing, and its clauses are the law; the laws that it rests on are called.

ghost use Rattle.std.specs.Prelude.{◌≡◌, ◌+◌, ◌++◌, ℕ, List, [], Result, true, false};
ghost use Rattle.chunk_files.specs.declared.fault.ChunkFault.{ChunkFault};
ghost use Rattle.chunk_files.specs.declared.step.Step.{Step};
ghost use Rattle.chunk_files.specs.Decoding.{Decoding, GivesNext, HasGiven, chunks_in, started, with_step};
ghost use Rattle.chunk_files.specs.Encoding.{MadeIsAFront, MoreDrawnGiveMore};
ghost use Rattle.chunk_files.specs.FileOf.{EncryptedFilesAreFiles, FilesAreWhatTheyGive, WholeFilesEnd};
ghost use Rattle.chunk_files.specs.Keys.{Keys};
ghost use Rattle.chunk_files.specs.Layouts.{SizesFit};
ghost use Rattle.chunk_files.specs.Sizes.{FilesAreNotMuchLonger, ReadingsAreNoLonger};

use gcm_mode::laws::{sealed_texts_are_bytes, unsealing_undoes_sealing};
use kdf_suite::laws::digests_are_bytes;

/// The law that the sizes of every layout fit together: they are some, a header and a stored chunk are within a buffer, a stored chunk
/// begins with its nonce, and where zeros are refused sixteen bytes are drawn.
pub fn sizes_fit()
    ensures { SizesFit }
{}

/// The law that a file is of a content exactly where reading it ends without a fault and gives that
/// content.
pub fn files_are_what_they_give()
    ensures { FilesAreWhatTheyGive }
{
    sealed_texts_are_bytes();
    unsealing_undoes_sealing();
    digests_are_bytes();
}

/// The law that bytes behind which a file goes on are read as no whole file.
pub fn whole_files_end()
    ensures { WholeFilesEnd }
{}

/// The law that bytes in which reading meets no fault are at most 33 for each byte that is read of them, and a header and a stored chunk
/// more.
pub fn files_are_not_much_longer()
    ensures { FilesAreNotMuchLonger }
{
    sealed_texts_are_bytes();
    unsealing_undoes_sealing();
    digests_are_bytes();
}

/// The law that what is read of some bytes has no more bytes than they.
pub fn readings_are_no_longer()
    ensures { ReadingsAreNoLonger }
{
    sealed_texts_are_bytes();
    unsealing_undoes_sealing();
    digests_are_bytes();
}

/// The law that what is encrypted under drawn bytes, of which neither the id nor a nonce is refused, is a
/// file of its content.
pub fn encrypted_files_are_files()
    ensures { EncryptedFilesAreFiles }
{}

/// The law that the chunks that a decoder gave are the first of those that the file gives, whatever the
/// pieces were that it was fed: from its start on, through each piece, the end and each step.
pub fn given_chunks_come_first()
    ensures started { (keys : Keys) → HasGiven keys [] [] (started keys) }
    ensures fed { (keys : Keys) (fed : List ℕ) (chunks : List (List ℕ)) (d : Decoding) (piece : List ℕ) (taken : ℕ) → HasGiven keys fed chunks d → d.ended ≡ false
        → HasGiven keys (fed ++ piece) chunks (record d { taken = taken; held = d.held ++ piece }) }
    ensures ended { (keys : Keys) (fed : List ℕ) (chunks : List (List ℕ)) (d : Decoding) → HasGiven keys fed chunks d
        → HasGiven keys fed chunks (record d { ended = true }) }
    ensures next { (keys : Keys) (fed : List ℕ) (chunks : List (List ℕ)) (d d2 : Decoding) (step : Result Step ChunkFault) (buffer : List ℕ) → HasGiven keys fed chunks d
        → GivesNext d step d2 buffer → d2.ended ≡ d.ended → d2.number ≡ d.number + chunks_in step → HasGiven keys fed (with_step chunks step buffer) d2 }
{}

/// The law that more drawn bytes give the same file or a longer one.
pub fn more_drawn_give_more()
    ensures { MoreDrawnGiveMore }
{}

/// The law that what an encoder made so far is the front of the file of any content that goes on so.
pub fn made_is_a_front()
    ensures { MadeIsAFront }
{}
