//! Calls of siv_mode, eme_mode and key_wrap.

ghost use Rattle.std.specs.Prelude.{◌≡◌, ◌∷◌, []};

use crate::answer::Answer;
use crate::arguments::Arguments;
use aes_lanes::{Block, Key128, Key256};
use eme_mode::Eme;
use eme_mode::laws::directions_undo_each_other;
use key_wrap::laws::unwrapping_undoes_wrapping;
use key_wrap::{unwrap_key, wrap_key};
use siv_mode::{Cmac, Siv, SivFault};

/// Makes a call of this module, and says whether there is one of this name.
pub fn answer(name: &str, args: &mut Arguments, answer: &mut Answer) -> bool {
    match name {
        "cmac-128" => answer.bytes(&Cmac::new(Key128::new(&args.array(0))).of(args.bytes(1))),
        "s2v-128" => answer.bytes(&siv(args).s2v(associated(args), args.bytes(3))),
        "siv-128" => sealed(args, answer),
        "siv-128-open" => opened(args, answer),
        "siv-128-size" => size(args, answer),
        "eme-256" => encrypted(args, answer),
        "wrap-256" => wrapped(args, answer),
        "unwrap-256" => unwrapped(args, answer),
        _ => return false,
    }
    true
}

fn siv(args: &Arguments) -> Siv<Key128> {
    Siv::new(Key128::new(&args.array(0)), Key128::new(&args.array(1)))
}

// The associated string that an argument writes, or that there is none: `none`.
fn associated(args: &Arguments) -> Option<&[u8]> {
    if args.word(2) == "none" {
        None
    } else {
        Some(args.bytes(2))
    }
}

// A text that is sealed, and given back. How it is sealed is for the caller to say.
fn seal(args: &Arguments, answer: &mut Answer) -> Vec<u8> {
    let alloc = answer.alloc();
    let siv = siv(args);
    let (ad, text) = (associated(args), args.bytes(3));
    let Ok(sealed) = siv.seal(alloc, ad, text) else {
        answer.lacks();
        return Vec::new(alloc);
    };
    match siv.unseal(alloc, ad, sealed.as_slice()) {
        Ok(opened) if opened.as_slice() == text => {}
        Err(SivFault::NoMemory) => answer.lacks(),
        _ => answer.word("it isn't given back"),
    }
    sealed
}

fn sealed(args: &Arguments, answer: &mut Answer) {
    let sealed = seal(args, answer);
    answer.bytes(sealed.as_slice());
}

fn size(args: &Arguments, answer: &mut Answer) {
    let size = seal(args, answer).len();
    answer.shows(&size);
}

// The text that seals to some bytes, or why there is none.
fn opened(args: &Arguments, answer: &mut Answer) {
    match siv(args).unseal(answer.alloc(), associated(args), args.bytes(3)) {
        Ok(opened) => answer.bytes(opened.as_slice()),
        Err(SivFault::Short) => answer.word("short"),
        Err(SivFault::BadTag) => answer.word("bad tag"),
        Err(SivFault::NoMemory) => answer.lacks(),
    }
}

// Decrypting what was encrypted gives it back, whatever it is.
fn encrypt_and_decrypt(eme: &Eme, tweak: &Block, first: &Block, second: &Block) -> [Block; 2]
    ensures { result ≡ first.now ∷ second.now ∷ [] }
{
    let mut blocks = [*first, *second];
    eme.encrypt(tweak, &mut blocks);
    eme.decrypt(tweak, &mut blocks);
    directions_undo_each_other();
    blocks
}

// Whether the first two blocks, if there are so many, are given back by themselves.
fn are_two_given_back(eme: &Eme, tweak: &Block, blocks: &[Block]) -> bool {
    match blocks {
        [first, second, ..] => encrypt_and_decrypt(eme, tweak, first, second) == [*first, *second],
        _ => true,
    }
}

// Encrypts blocks in place, which are decrypted again.
fn encrypted(args: &mut Arguments, answer: &mut Answer) {
    let (eme, tweak) = (Eme::new(Key256::new(&args.array(0))), args.array(1));
    let changed = args.changed_blocks(2);
    if changed.is_empty() || changed.len() > 128 {
        return args.refuse("no 1 to 128 blocks");
    }
    eme.encrypt(&tweak, changed);
    answer.bytes(changed.as_flattened());
    eme.decrypt(&tweak, changed);
    let are_given_back = args.is_given_back(2) && are_two_given_back(&eme, &tweak, args.blocks(2));
    answer.unless(are_given_back, "they aren't given back");
}

// Unwrapping what was wrapped gives it back, whatever it is.
fn wrap_and_unwrap(kek: &Key256, key: &[u8; 32]) -> [u8; 32]
    ensures { result ≡ key.now }
{
    unwrapping_undoes_wrapping();
    match unwrap_key(kek, &wrap_key(kek, key)) {
        Ok(unwrapped) => unwrapped,
        Err(_) => [0; 32],
    }
}

// A key that is wrapped, and given back.
fn wrapped(args: &Arguments, answer: &mut Answer) {
    let (kek, key) = (Key256::new(&args.array(0)), args.array(1));
    answer.bytes(&wrap_key(&kek, &key));
    answer.unless(wrap_and_unwrap(&kek, &key) == key, "it isn't given back");
}

fn unwrapped(args: &Arguments, answer: &mut Answer) {
    match unwrap_key(&Key256::new(&args.array(0)), &args.array(1)) {
        Ok(key) => answer.bytes(&key),
        Err(_) => answer.word("bad wrap"),
    }
}
