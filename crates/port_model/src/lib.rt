//! The streams that a command is handed: where its input and its random bytes come from, and where its
//! output goes.
//! Each object counts how often it failed, and no call answers a fault without that count.
#![tactic(auto)]

pub mod laws;
pub mod list_randoms;
pub mod mem_randoms;
pub mod mem_sink;
pub mod mem_source;
pub mod randoms;
pub mod sink;
pub mod source;
pub mod std_sink;
pub mod std_source;

pub use list_randoms::ListRandoms;
pub use mem_randoms::MemRandoms;
pub use mem_sink::MemSink;
pub use mem_source::MemSource;
pub use randoms::{RandomFault, Randoms};
pub use sink::{Sink, SinkFault};
pub use source::{Source, SourceFault};
pub use std_sink::StdSink;
pub use std_source::StdSource;
