//! Calls of gcm_mode.

ghost use Rattle.std.specs.Prelude.{◌≡◌, ◌<◌, ◌≤◌, ◌^◌, length, IsOk};

use crate::aes::{LONGEST, block_number, plain_stream};
use crate::answer::Answer;
use crate::arguments::Arguments;
use aes_lanes::{Block, Cipher, Key256, same_bytes};
use gcm_mode::laws::{opens_to_one_text, unsealing_undoes_sealing};
use gcm_mode::{BadTag, Gcm, product};
use std::alloc::{AllocError, Global};

/// Makes a call of this module, and says whether there is one of this name.
pub fn answer(name: &str, args: &mut Arguments, answer: &mut Answer) -> bool {
    match name {
        "gcm-256" => sealed(args, answer),
        "gcm-256-lengths" => lengths(args, answer),
        _ => return false,
    }
    true
}

// Unsealing a text that was sealed gives it back, whatever it is.
fn seal_and_unseal(gcm: &Gcm, iv: &[u8], ad: &[u8], text: &mut [u8]) -> Result<(), BadTag>
    requires some_iv { 0 < length iv.now }
    requires iv_within { length iv.now ≤ 2 ^ 32 }
    requires ad_within { length ad.now ≤ 2 ^ 32 }
    requires text_within { length text.old ≤ 2 ^ 32 }
    ensures right_tag { IsOk result }
    ensures same_text { text.new ≡ text.old }
{
    let tag = gcm.seal(iv, ad, text);
    let unsealed = gcm.unseal(iv, ad, text, &tag);
    unsealing_undoes_sealing();
    opens_to_one_text();
    unsealed
}

// What is wrong with a text that was sealed with a tag, if anything: another tag doesn't open it and leaves it as
// it is, its own gives the plain text back, and it can be sealed and unsealed once more.
fn wrong_in(
    gcm: &Gcm,
    iv: &[u8],
    ad: &[u8],
    text: &mut [u8],
    tag: &Block,
    sealed: &[u8],
    plain: &[u8],
) -> &'static str
    requires some_iv { 0 < length iv.now }
    requires iv_within { length iv.now ≤ 20000000 }
    requires ad_within { length ad.now ≤ 20000000 }
    requires text_within { length text.old ≤ 20000000 }
{
    let mut wrong = *tag;
    wrong[12] ^= 1;
    if gcm.unseal(iv, ad, text, &wrong).is_ok() {
        return "another tag opens it";
    }
    if !same_bytes(text, sealed) {
        return "another tag changes it";
    }
    if gcm.unseal(iv, ad, text, tag).is_err() {
        return "its tag doesn't open it";
    }
    if !same_bytes(text, plain) {
        return "it opens to another text";
    }
    if seal_and_unseal(gcm, iv, ad, text).is_err() {
        return "it doesn't open a second time";
    }
    ""
}

fn sealed(args: &mut Arguments, answer: &mut Answer) {
    let gcm = Gcm::new(Key256::new(&args.array(0)));
    let (iv, ad, plain) = (args.bytes(1), args.bytes(2), args.bytes(3));
    if iv.is_empty() {
        return args.refuse("an initialization vector of no bytes");
    }
    let alloc = answer.alloc();
    let Ok(mut text) = plain.to_vec(alloc) else {
        return answer.lacks();
    };
    let Ok(mut sealed) = plain.to_vec(alloc) else {
        return answer.lacks();
    };
    let (text, sealed) = (text.as_mut_slice(), sealed.as_mut_slice());
    let tag = gcm.seal(iv, ad, text);
    let again = gcm.seal(iv, ad, sealed);
    answer.bytes(sealed);
    answer.bytes(&tag);
    answer.unless(tag == again, "another tag the second time");
    answer.word(wrong_in(&gcm, iv, ad, text, &tag, sealed, plain));
}

// GHASH goes on from `hash` over some bytes, each product bit by bit.
fn plain_hash(subkey: u128, mut hash: u128, bytes: &[u8]) -> u128 {
    for block in bytes.chunks(16) {
        hash = product(hash ^ block_number(block), subkey);
    }
    hash
}

// Encrypts a text in place by the plain bodies, and gives its tag.
fn plain_seal(key: &Key256, iv: &[u8; 12], ad: &[u8], text: &mut [u8]) -> Block {
    let start = block_number(iv).wrapping_add(1);
    let mut blocks = [[0; 16], start.to_be_bytes()];
    key.encrypt_blocks(&mut blocks);
    plain_stream(key, &start.wrapping_add(1).to_be_bytes(), text);
    let subkey = u128::from_be_bytes(blocks[0]);
    let hash = plain_hash(subkey, plain_hash(subkey, 0, ad), text);
    let lengths = ((ad.len() as u128).wrapping_mul(8) << 64) ^ (text.len() as u128).wrapping_mul(8);
    let tag = product(hash ^ lengths, subkey) ^ u128::from_be_bytes(blocks[1]);
    tag.to_be_bytes()
}

// Whether a byte, so many times, is sealed as by the plain bodies.
fn is_sealed_as_plain(
    alloc: Global,
    key: &[u8; 32],
    iv: &[u8; 12],
    ad: &[u8],
    value: u8,
    count: usize,
) -> Result<bool, AllocError>
    requires ad_within { length ad.now ≤ 20000000 }
    requires text_within { count ≤ LONGEST }
{
    let mut text = vec![in alloc; value; count]?;
    let mut plain = vec![in alloc; value; count]?;
    let (text, plain) = (text.as_mut_slice(), plain.as_mut_slice());
    let tag = Gcm::new(Key256::new(key)).seal(iv, ad, text);
    let plain_tag = plain_seal(&Key256::new(key), iv, ad, plain);
    Ok(same_bytes(text, plain) && tag == plain_tag)
}

// Compares what texts of each length from one to another seal to with what the plain bodies make of them.
fn lengths(args: &Arguments, answer: &mut Answer) {
    let (key, iv, ad) = (args.array(0), args.array(1), args.bytes(2));
    let value = args.byte(3);
    let (least, most) = (args.up_to(4, LONGEST), args.up_to(5, LONGEST));
    if least > most {
        return args.refuse("a range of no lengths");
    }
    let alloc = answer.alloc();
    for count in least..=most {
        let same = is_sealed_as_plain(alloc, &key, &iv, ad, value, count);
        if !answer.goes_on(same, "others of", count) {
            return;
        }
    }
    answer.word("plain");
}
