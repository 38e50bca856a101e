ghost use Rattle.std.specs.Prelude.{Some};
ghost use Rattle.chunk_files.specs.Fault.{fault_text};

use std::fmt;

/// The first fault of a content file. A chunk is named by its number, counted from 0.
#[derive(Clone, Copy, PartialEq, Eq)]
pub enum ChunkFault {
    /// There are bytes, but fewer than a header has.
    NoHeader,
    /// The header names another number of the format than 2.
    HeaderVersion(u16),
    /// The file id is all zero.
    ZeroId,
    /// The header's tag is wrong.
    HeaderTag,
    /// A chunk has fewer bytes than a nonce and a tag have.
    ShortChunk(u64),
    /// A chunk that is no hole has a nonce of zeros.
    ZeroNonce(u64),
    /// A chunk's tag is wrong.
    ChunkTag(u64),
}

/// Why a content file could not be made. The encoder is then of no further use.
#[derive(Clone, Copy, PartialEq, Eq)]
pub enum EncodeFault {
    /// The random source failed; its count of faults says how often.
    Random,
    /// A file id or a nonce was drawn as sixteen zero bytes.
    ZeroRandom,
}

impl fmt::Display for ChunkFault {
    ghost output = { λ fault. Some (fault_text fault) };

    fn fmt<W: fmt::Write>(&self, f: &mut fmt::Formatter<W>) -> fmt::Result {
        match self {
            ChunkFault::NoHeader => f.write_str("no header"),
            ChunkFault::HeaderVersion(version) => write!(f, "header version {version}"),
            ChunkFault::ZeroId => f.write_str("zero file id"),
            ChunkFault::HeaderTag => f.write_str("header tag"),
            ChunkFault::ShortChunk(number) => write!(f, "chunk {number} short"),
            ChunkFault::ZeroNonce(number) => write!(f, "chunk {number} zero nonce"),
            ChunkFault::ChunkTag(number) => write!(f, "chunk {number} tag"),
        }
    }
}
