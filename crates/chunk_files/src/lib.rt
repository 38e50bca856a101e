//! Content files of both formats: a header and sealed chunks, made of a content under random bytes, and read
//! back piece by piece to the plain chunks with each fault named exactly.
#![tactic(auto)]

mod chunk;
pub mod chunk_buf;
pub mod decoder;
mod draw;
pub mod encoder;
pub mod fault;
mod header;
mod held;
pub mod keys;
pub mod laws;
mod new_header;
mod sealed;
pub mod step;
mod tagged;
mod told;
mod zeros;

pub use chunk_buf::ChunkBuf;
pub use decoder::Decoder;
pub use encoder::{Begun, Encoder};
pub use fault::{ChunkFault, EncodeFault};
pub use keys::{ContentKeys, Layout};
pub use step::Step;
