//! Calls of kdf_suite.

ghost use Rattle.std.specs.Prelude.{◌<◌};

use crate::answer::Answer;
use crate::arguments::Arguments;
use kdf_suite::{HmacPieces, ScryptCost, hkdf256, hmac256, hmac384, hmac512, pbkdf2_256, scrypt};

/// Makes a call of this module, and says whether there is one of this name.
pub fn answer(name: &str, args: &mut Arguments, answer: &mut Answer) -> bool {
    match name {
        "hmac-256" => answer.bytes(&hmac256(args.bytes(0), args.bytes(1))),
        "hmac-384" => answer.bytes(&hmac384(args.bytes(0), args.bytes(1))),
        "hmac-512" => answer.bytes(&hmac512(args.bytes(0), args.bytes(1))),
        "hmac-256-pieces" => pieces(args, answer),
        "hkdf-256" => derived(args, answer),
        "hkdf-256-sum" => {
            derived(args, answer);
            answer.sum_of_bytes();
        }
        "pbkdf2-256" => stretched(args, answer),
        "scrypt" => mixed(args, answer),
        "scrypt-cost" => match cost(args, 0) {
            Some(cost) => cost_shown(&cost, answer),
            None => answer.word("no cost"),
        },
        _ => return false,
    }
    true
}

// The most bytes that HKDF by SHA-256 makes (RFC 5869, section 2.3): 255 blocks.
const MOST: usize = 8_160;

fn derived(args: &Arguments, answer: &mut Answer) {
    let room = answer.room(args.up_to(3, MOST));
    hkdf256(args.bytes(0), args.bytes(1), args.bytes(2), room);
}

fn stretched(args: &Arguments, answer: &mut Answer) {
    let rounds = args.up_to(2, 200_000) as u32;
    if rounds == 0 {
        return args.refuse("no rounds");
    }
    let room = answer.room(args.up_to(3, MOST));
    pbkdf2_256(args.bytes(0), args.bytes(1), rounds, room);
}

fn pieces(args: &Arguments, answer: &mut Answer) {
    let mut pieces = HmacPieces::new(args.bytes(0));
    pieces.update(args.bytes(1));
    pieces.update(args.bytes(2));
    answer.bytes(&pieces.finish());
}

/// The cost that three arguments write, from this place on.
pub fn cost(args: &Arguments, place: usize) -> Option<ScryptCost>
    requires { place < 100 }
{
    ScryptCost::new(
        args.number(place),
        args.number(place + 1),
        args.number(place + 2),
    )
    .ok()
}

/// The three numbers of a cost.
pub fn cost_shown(cost: &ScryptCost, answer: &mut Answer) {
    answer.shows(&cost.n());
    answer.shows(&cost.r());
    answer.shows(&cost.p());
}

fn mixed(args: &Arguments, answer: &mut Answer) {
    let Some(cost) = cost(args, 2) else {
        return args.refuse("no cost");
    };
    let alloc = answer.alloc();
    let room = answer.room(args.up_to(5, MOST));
    if scrypt(alloc, args.bytes(0), args.bytes(1), &cost, room).is_err() {
        answer.lacks();
    }
}
