// GF(2^128) on blocks that are read as numbers, their first byte highest.

ghost use Rattle.std.specs.Prelude.{◌≡◌, ◌*◌, ◌<◌};
ghost use Rattle.gcm_mode.specs.Field.{times_u as u_times, product as product_of};

const REDUCTION: u128 = 0xe1 << 120;

// `value` where the bit is set and 0 elsewhere, in the same time for both.
fn where_set(bit: u128, value: u128) -> u128
    requires { bit < 2 }
    ensures { result ≡ bit * value }
{
    bit.wrapping_neg() & value
}

#[tactic(auto, unfolding(crate::specs::Field::times_u))]
pub fn times_u(value: u128) -> u128
    ensures { result ≡ u_times value }
{
    value >> 1 ^ where_set(value & 1, REDUCTION)
}

/// The product of two blocks in GF(2^128) (section 6.3), bit by bit, where GHASH looks its products up by
/// shuffles.
pub fn product(x: u128, y: u128) -> u128
    ensures { result ≡ product_of x y }
{
    let mut sum = 0;
    let mut multiple = y;
    for i in 0..128u32 {
        sum ^= where_set(x >> (127 - i) & 1, multiple);
        multiple = times_u(multiple);
    }
    sum
}
