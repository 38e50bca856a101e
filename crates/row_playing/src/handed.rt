//! What a run is handed beside the folder: random bytes, an input in pieces, and two outputs. Each counts its calls, so that a sweep knows
//! where they end.
ghost use Rattle.std.specs.Prelude.{◌==◌, Some, length, slice_get};

use port_model::{
    ListRandoms, MemSink, MemSource, RandomFault, Randoms, Sink, SinkFault, Source, SourceFault,
};

/// Random bytes.
#[derive(Drop)]
pub struct Drawn {
    pub list: ListRandoms,
    pub calls: u64,
    /// The last call that is to fail, 0 where none is.
    pub last: u64,
}

impl Randoms for Drawn {
    ghost left = { λ s. Some (slice_get s.list.left) };

    ghost faults = { λ s. s.list.faults };

    fn fill(&mut self, out: &mut [u8]) -> Result<(), RandomFault> {
        self.calls = self.calls.saturating_add(1);
        self.list.fill(out)
    }
}

/// An input that gives at most so many bytes a call.
#[derive(Drop)]
pub struct Pieces {
    pub source: MemSource,
    pub most: usize,
    pub calls: u64,
    /// The last call that is to fail, 0 where none is.
    pub last: u64,
}

impl Source for Pieces {
    ghost left = { λ s. Some s.source.left };

    ghost ended = { λ s. length s.source.left == 0 };

    ghost faults = { λ s. s.source.faults };

    fn take(&mut self, out: &mut [u8]) -> Result<usize, SourceFault> {
        self.calls = self.calls.saturating_add(1);
        if out.is_empty() {
            return self.source.take(out);
        }
        let most = out.len().min(self.most).max(1);
        self.source.take(&mut out[..most])
    }
}

/// An output.
#[derive(Drop)]
pub struct Taken {
    pub sink: MemSink,
    pub calls: u64,
    /// The last call that is to fail, 0 where none is.
    pub last: u64,
}

impl Sink for Taken {
    ghost taken = { λ s. Some s.sink.taken };

    ghost faults = { λ s. s.sink.faults };

    fn put(&mut self, piece: &[u8]) -> Result<(), SinkFault> {
        self.calls = self.calls.saturating_add(1);
        self.sink.put(piece)
    }
}

/// All that a run is handed beside the folder.
#[derive(Drop)]
pub struct Handed {
    pub random: Drawn,
    pub input: Pieces,
    pub out: Taken,
    pub err: Taken,
}

impl Handed {
    /// Whether fewer calls were made than those that are to fail.
    pub fn has_unmade(&self) -> bool {
        self.random.calls < self.random.last
            || self.input.calls < self.input.last
            || self.out.calls < self.out.last
            || self.err.calls < self.err.last
    }
}
