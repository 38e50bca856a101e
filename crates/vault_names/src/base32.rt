//! Base32 (RFC 4648, section 6) of hashes of twenty bytes.
ghost use Rattle.std.specs.Prelude.{◌≡◌, ◌<◌, ◌++◌};
ghost use Rattle.vault_names.specs.Base32.{base32, group_text, number_of, symbol};

/// The base32 text of a hash. It takes no memory.
pub fn base32_of(hash: &[u8; 20]) -> [u8; 32]
    ensures { result ≡ base32 hash.now }
{
    let (groups, _) = hash.as_chunks::<5>();
    joined(
        &group_text(&groups[0]),
        &group_text(&groups[1]),
        &group_text(&groups[2]),
        &group_text(&groups[3]),
    )
}

// Four texts, one after the other.
fn joined(one: &[u8; 8], two: &[u8; 8], three: &[u8; 8], four: &[u8; 8]) -> [u8; 32]
    ensures { result ≡ one.now ++ two.now ++ three.now ++ four.now }
{
    let mut text = [0; 32];
    let (first, rest) = text.split_at_mut(8);
    let (second, rest) = rest.split_at_mut(8);
    let (third, fourth) = rest.split_at_mut(8);
    first.copy_from_slice(one);
    second.copy_from_slice(two);
    third.copy_from_slice(three);
    fourth.copy_from_slice(four);
    text
}

// The text of five bytes.
#[tactic(auto, unfolding(crate::specs::Base32::group_text))]
fn group_text(bytes: &[u8; 5]) -> [u8; 8]
    ensures { result ≡ group_text bytes.now }
{
    let n = number_of(bytes);
    [
        symbol((n >> 35) % 32),
        symbol((n >> 30) % 32),
        symbol((n >> 25) % 32),
        symbol((n >> 20) % 32),
        symbol((n >> 15) % 32),
        symbol((n >> 10) % 32),
        symbol((n >> 5) % 32),
        symbol(n % 32),
    ]
}

// The number of forty bits whose bytes these are, the first highest.
fn number_of(bytes: &[u8; 5]) -> u64
    ensures { result ≡ number_of bytes.now }
{
    let [a, b, c, d, e] = *bytes;
    let front = (u64::from(a) * 256 + u64::from(b)) * 256 + u64::from(c);
    (front * 256 + u64::from(d)) * 256 + u64::from(e)
}

// The symbol of five bits.
fn symbol(digit: u64) -> u8
    requires { digit < 32 }
    ensures { result ≡ symbol digit }
{
    if digit < 26 {
        b'A' + digit as u8
    } else {
        b'2' - 26 + digit as u8
    }
}
