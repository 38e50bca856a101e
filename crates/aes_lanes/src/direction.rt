// The two ways through a cipher.

/// Whether blocks become their images or their preimages.
#[derive(Clone, Copy)]
pub(crate) enum Direction {
    Forward,
    Backward,
}
