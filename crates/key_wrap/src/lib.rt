//! The AES Key Wrap algorithm (RFC 3394), of a key of 32 bytes under AES-256.
//!
//! Nothing here takes memory.
#![tactic(auto)]

ghost use Rattle.std.specs.Prelude.{◌≡◌, ℕ, ◌+◌, ◌↔◌, List, ◌++◌, length, IfOk, OnErr};
ghost use Rattle.aes_lanes.specs.Cipher.{aes256};
ghost use Rattle.key_wrap.specs.Wrap.{wrapped as wrapped_of, numbered as numbered_of, step as step_of, Unwraps, UnwrapsToNothing};
ghost use Rattle.key_wrap.specs.Private.{IsState};

use aes_lanes::{Block, Cipher, Key256, same_bytes};

pub mod laws;

/// No key wraps to these bytes.
#[derive(Clone, Copy, PartialEq, Eq)]
pub struct BadWrap;

// The integrity value and the four parts of the key, as they stand between two steps.
type State = [u8; 40];

const INITIAL_VALUE: [u8; 8] = [0xa6; 8];

const STEPS: u8 = 24;

/// The key, wrapped by a key-encryption key (section 2.2.1).
pub fn wrap_key(kek: &Key256, key: &[u8; 32]) -> [u8; 40]
    ensures { result ≡ wrapped_of (aes256 kek.now) key.now }
{
    let mut state: State = joined(&INITIAL_VALUE, key);
    for done in 0..STEPS {
        let next = step(kek, done + 1, &state);
        state = next;
    }
    state
}

/// The key that a key-encryption key wraps to these bytes (section 2.2.2).
pub fn unwrap_key(kek: &Key256, wrapped: &[u8; 40]) -> Result<[u8; 32], BadWrap>
    ensures unwrapped { IfOk result (λ key. Unwraps (aes256 kek.now) wrapped.now key) }
    ensures bad_wrap { OnErr result (UnwrapsToNothing (aes256 kek.now) wrapped.now) }
{
    let mut state = *wrapped;
    for undone in 0..STEPS {
        let before = unstep(kek, STEPS - undone, &state);
        state = before;
    }
    let (value, key) = state.split_at(8);
    if !same_bytes(value, &INITIAL_VALUE) {
        return Err(BadWrap);
    }
    Ok(joined(key, &[]))
}

// The state after step `t`.
fn step(kek: &Key256, t: u8, state: &State) -> State
    ensures { result ≡ step_of (aes256 kek.now) t state.now }
{
    let (front, parts) = state.split_at(16);
    let mut blocks = [joined(front, &[])];
    kek.encrypt_blocks(&mut blocks);
    let block = numbered(t, &blocks[0]);
    let (value, last) = block.split_at(8);
    let front: [u8; 32] = joined(value, parts);
    joined(&front, last)
}

// The state before step `t`.
fn unstep(kek: &Key256, t: u8, state: &State) -> State
    ensures state { IsState result }
    ensures undone { (before : List ℕ) → IsState before
        → (step_of (aes256 kek.now) t before ≡ state.now) ↔ (before ≡ result) }
{
    let (front, last) = state.split_at(32);
    let (value, parts) = front.split_at(8);
    let mut blocks = [numbered(t, &joined(value, last))];
    kek.decrypt_blocks(&mut blocks);
    joined(&blocks[0], parts)
}

// A block with the number of a step added to its first half.
fn numbered(t: u8, block: &Block) -> Block
    ensures { result ≡ numbered_of t block.now }
{
    let mut block = *block;
    block[7] ^= t;
    block
}

// Two byte strings, end to end.
fn joined<const N: usize>(front: &[u8], back: &[u8]) -> [u8; N]
    requires { length front.now + length back.now ≡ N }
    ensures { result ≡ front.now ++ back.now }
{
    let mut bytes = [0; N];
    let (start, end) = bytes.split_at_mut(front.len());
    start.copy_from_slice(front);
    end.copy_from_slice(back);
    bytes
}
