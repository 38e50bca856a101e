// Output that is made of numbered blocks of 32 bytes.

ghost use Rattle.std.specs.Prelude.{◌≡◌, ◌+◌, ◌-◌, ◌≤◌, ◌++◌, length, take, drop, bit_xor};
ghost use Rattle.std.specs.Simd.Lanes.{zip2};

pub(crate) const BLOCK_LEN: usize = 32;

// Writes the front of the block at byte `start`, as far as there is room.
pub(crate) fn write_front(out: &mut [u8], start: usize, block: &[u8; 32])
    requires { start ≤ length out.old }
    ensures { out.new ≡ take start out.old
        ++ (take (length out.old - start) block.now ++ drop (start + 32) out.old) }
{
    let count = (out.len() - start).min(BLOCK_LEN);
    out[start..start + count].copy_from_slice(&block[..count]);
}

// Xors `other` into `bytes`, byte by byte.
pub(crate) fn xor_into(bytes: &mut [u8; 32], other: &[u8; 32])
    ensures { bytes.new ≡ zip2 bit_xor bytes.old other.now }
{
    'bytes: for i in 0..BLOCK_LEN {
        bytes[i] ^= other[i];
    }
}
