// S2V (RFC 5297, section 2.4).

ghost use Rattle.std.specs.Prelude.{◌≡◌, ◌+◌, ◌<◌, ◌≤◌, ◌++◌, length};
ghost use Rattle.siv_mode.specs.Blocks.{zero_block};
ghost use Rattle.siv_mode.specs.Cmac.{cmac as cmac_of};
ghost use Rattle.siv_mode.specs.S2v.{associated, last_text, s2v as s2v_of, summed as summed_of, xorend as xorend_of};

use super::blocks::{doubled, padded, sum, whole};
use super::mac::Cmac;
use aes_lanes::{Block, Cipher};

// S2V of an associated string, where there is one, and the last string. `first` is CMAC of a block of zeros.
pub fn s2v<C: Cipher>(mac: &Cmac<C>, first: &Block, ad: Option<&[u8]>, string: &[u8]) -> Block
    requires { first.now ≡ cmac_of (C.image mac.now) zero_block }
    ensures { result ≡ s2v_of (C.image mac.now) (associated ad.entry) string.now }
{
    let sum = summed(mac, first, ad);
    if string.len() < 16 {
        return mac.of(&short_text(&sum, string));
    }
    cmac_of_long(mac, &sum, string)
}

// The value D before the last string, where it begins with `first`.
fn summed<C: Cipher>(mac: &Cmac<C>, first: &Block, ad: Option<&[u8]>) -> Block
    ensures { result ≡ summed_of (C.image mac.now) first.now (associated ad.entry) }
{
    match ad {
        None => *first,
        Some(string) => sum(&doubled(first), &mac.of(string)),
    }
}

// The text of D and a last string of fewer than 16 bytes.
fn short_text(d: &Block, string: &[u8]) -> Block
    requires { length string.now < 16 }
    ensures { result ≡ last_text d.now string.now }
{
    sum(&doubled(d), &padded(string))
}

// CMAC of the text of D and a last string of 16 bytes or more.
fn cmac_of_long<C: Cipher>(mac: &Cmac<C>, d: &Block, string: &[u8]) -> Block
    requires { 16 ≤ length string.now }
    ensures { result ≡ cmac_of (C.image mac.now) (xorend_of string.now d.now) }
{
    let mut value = [0; 16];
    let mut rest = string;
    while rest.len() >= 32 {
        let (block, others) = rest.split_at(16);
        let next = mac.chained(&value, &whole(block));
        value = next;
        rest = others;
    }
    let (front, back) = rest.split_at(rest.len() - 16);
    let end = sum(&whole(back), d);
    mac.from(&value, joined(&mut [0; 32], front, &end))
}

// Two byte strings end to end, in a room for 32 bytes.
fn joined<'a>(room: &'a mut [u8; 32], front: &[u8], back: &[u8]) -> &'a [u8]
    requires { length front.now + length back.now ≤ 32 }
    ensures { result.now ≡ front.now ++ back.now }
{
    let text = &mut room[..front.len() + back.len()];
    let (start, end) = text.split_at_mut(front.len());
    start.copy_from_slice(front);
    end.copy_from_slice(back);
    text
}
