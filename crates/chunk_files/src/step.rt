/// What a decoder gives next.
#[derive(Clone, Copy, PartialEq, Eq)]
pub enum Step {
    /// It needs more bytes than it holds for the header or a whole chunk.
    More,
    /// The next chunk has so many plain bytes, at the front of the buffer.
    Chunk(usize),
    /// The file has ended.
    End,
}
