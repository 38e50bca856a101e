//! All calls.

use crate::answer::Answer;
use crate::arguments::Arguments;
use crate::{aes, configurations, contents, gcm, keys, laws, modes, names, paths, ports, texts};

/// Makes the call of this name, which one module knows, and says whether there is one.
pub fn answer(name: &str, args: &mut Arguments, answer: &mut Answer) -> bool {
    aes::answer(name, args, answer)
        || gcm::answer(name, args, answer)
        || modes::answer(name, args, answer)
        || keys::answer(name, args, answer)
        || texts::answer(name, args, answer)
        || configurations::answer(name, args, answer)
        || paths::answer(name, args, answer)
        || names::answer(name, args, answer)
        || contents::answer(name, args, answer)
        || ports::answer(name, args, answer)
        || laws::answer(name, answer)
}
