// Tables of products.

use super::vectors::Row;
use std::simd::prelude::*;

/// Two powers of a hash subkey, and the sixteen bytes of their products with each nibble, row by row.
#[derive(Clone, Copy)]
pub struct Pair {
    pub powers: u8x32,
    pub rows: [Row; 16],
}
