// BlockMix and ROMix (RFC 7914, sections 4 and 5). Within ROMix the words of each block stand by its diagonals.

ghost use Rattle.std.specs.Prelude.{◌≡◌, ◌≢◌, ℕ, ◌+◌, ◌-◌, ◌*◌, ◌%◌, ◌^◌, ◌<◌, ◌≤◌, List, length, bit_xor, IfOk};
ghost use Rattle.std.specs.Int.{IsPowerOfTwo};
ghost use Rattle.std.specs.Simd.Lanes.{zip2};
ghost use Rattle.kdf_suite.specs.Diagonals.{IsWhole, in_order, spread, words_of};
ghost use Rattle.kdf_suite.specs.RoMix.{block_at, block_mix, integerify, mixed_times, mixed_turns, ro_mix};
ghost use Rattle.kdf_suite.specs.Salsa.{salsa20_8};
ghost use Rattle.kdf_suite.specs.Table.{IsTable};

use crate::salsa::{Diagonals, diagonals_at, put_diagonals, salsa20_8, xored};
use std::alloc::{AllocError, Global};

const BLOCK_WORDS: usize = 16;

const PAIR_WORDS: usize = 2 * BLOCK_WORDS;

// The diagonals of a block take its words five places apart, round and round, and thirteen apart those are the words in order
// again: 5 · 13 is 1 modulo 16.
const TO_DIAGONALS: usize = 5;

const FROM_DIAGONALS: usize = 13;

// Xors `other` into `words`, word by word.
fn xor_words(words: &mut [u32], other: &[u32])
    requires { length words.old ≡ length other.now }
    ensures { words.new ≡ zip2 bit_xor words.old other.now }
{
    'words: for i in 0..words.len() {
        words[i] ^= other[i];
    }
}

// Takes the words of each block `step` places apart, round and round.
fn spread(words: &[u32], step: usize, out: &mut [u32])
    requires blocks { length words.now % 16 ≡ 0 }
    requires step { step ≤ 16 }
    requires room { length out.old ≡ length words.now }
    ensures { out.new ≡ spread step (length words.now) words.now }
{
    'words: for i in 0..words.len() {
        let start = BLOCK_WORDS * (i / BLOCK_WORDS);
        out[i] = words[start + step * (i % BLOCK_WORDS) % BLOCK_WORDS];
    }
}

// Mixes `block`, a block of the input, into `x`, and writes the result as block `place` of `output`.
#[inline(always)]
fn mix_block(x: Diagonals, block: &[u32], output: &mut [u32], place: usize) -> Diagonals
    requires whole { IsWhole x }
    requires block { length block.now ≡ 16 }
    requires room { 16 * place + 16 ≤ length output.old }
    ensures whole { IsWhole result }
    ensures mixed { words_of result ≡ salsa20_8 (zip2 bit_xor (words_of x) (in_order 16 block.now)) }
    ensures written { in_order 16 (block_at output.new place) ≡ words_of result }
    ensures others { (k : ℕ) → k ≢ place → block_at output.new k ≡ block_at output.old k }
{
    let mixed = salsa20_8(xored(x, diagonals_at(block)));
    let start = BLOCK_WORDS * place;
    put_diagonals(mixed, &mut output[start..start + BLOCK_WORDS]);
    mixed
}

// BlockMix of the 2r blocks of `input`, written into `output`.
fn block_mix(input: &[u32], output: &mut [u32], r: usize)
    requires low { 1 ≤ r }
    requires input { length input.now ≡ 32 * r }
    requires output { length output.old ≡ 32 * r }
    ensures { in_order (32 * r) output.new ≡ block_mix r (in_order (32 * r) input.now) }
{
    let mut x = diagonals_at(&input[PAIR_WORDS * r - BLOCK_WORDS..]);
    'pairs: for i in 0..r {
        let even = PAIR_WORDS * i;
        let odd = even + BLOCK_WORDS;
        let first = mix_block(x, &input[even..odd], output, i);
        let second = mix_block(first, &input[odd..odd + BLOCK_WORDS], output, r + i);
        x = second;
    }
}

// A row more of the table of `first`: `x`, which is mixed into `out`.
fn add_row(table: &mut Vec<u32>, x: &[u32], out: &mut [u32], r: usize) -> Result<(), AllocError>
    requires low { 1 ≤ r }
    requires x { length x.now ≡ 32 * r }
    requires out { length out.old ≡ 32 * r }
    ensures table { IfOk result (λ _. (first : List ℕ) (i : ℕ) → IsTable r first i table.old.items
        → in_order (32 * r) x.now ≡ mixed_times r first i
        → IsTable r first (i + 1) table.new.items) }
    ensures mixed { IfOk result (λ _. (first : List ℕ) (i : ℕ) → in_order (32 * r) x.now ≡ mixed_times r first i
        → in_order (32 * r) out.new ≡ mixed_times r first (i + 1)) }
{
    table.extend_from_slice(x)?;
    block_mix(x, out, r);
    Ok(())
}

// The table of the first n mixes of `x`, one after another; `x` is mixed n times, to `spare` and back by
// turns. `spare` is as long as `x`.
fn fill_table(
    alloc: Global,
    x: &mut [u32],
    spare: &mut [u32],
    n: usize,
    r: usize,
) -> Result<Vec<u32>, AllocError>
    requires low { 1 ≤ r }
    requires fits { 32 * r * n < 2 ^ 32 }
    requires x { length x.old ≡ 32 * r }
    requires spare { length spare.old ≡ 32 * r }
    ensures table { IfOk result (λ table. IsTable r (in_order (32 * r) x.old) n table.items) }
    ensures mixed { IfOk result (λ _. in_order (32 * r) x.new
        ≡ mixed_times r (in_order (32 * r) x.old) n) }
{
    let mut table = Vec::with_capacity(alloc, PAIR_WORDS * r * n)?;
    'rows: for _i in 0..n / 2 {
        add_row(&mut table, x, spare, r)?;
        add_row(&mut table, spare, x, r)?;
    }
    if n % 2 == 1 {
        add_row(&mut table, x, spare, r)?;
        x.copy_from_slice(spare);
    }
    Ok(table)
}

// Integerify of `x`, modulo n: since n divides 2^32, the first word of the last block tells it, which
// stands first among the diagonals too.
fn place_in_table(x: &[u32], n: usize, r: usize) -> usize
    requires low { 1 ≤ r }
    requires power { IsPowerOfTwo n }
    requires high { n < 2 ^ 32 }
    requires x { length x.now ≡ 32 * r }
    ensures place { result ≡ integerify r (in_order (32 * r) x.now) % n }
    ensures within { result < n }
{
    x[PAIR_WORDS * r - BLOCK_WORDS] as usize % n
}

// A turn of the second loop, over the table of `first`: from `x`, which becomes the sum, to `out`.
fn turn(table: &[u32], x: &mut [u32], out: &mut [u32], n: usize, r: usize)
    requires low { 1 ≤ r }
    requires power { IsPowerOfTwo n }
    requires high { n < 2 ^ 32 }
    requires table { length table.now ≡ 32 * r * n }
    requires x { length x.old ≡ 32 * r }
    requires out { length out.old ≡ 32 * r }
    ensures { (first : List ℕ) (i : ℕ) → IsTable r first n table.now
        → in_order (32 * r) x.old ≡ mixed_turns n r first i
        → in_order (32 * r) out.new ≡ mixed_turns n r first (i + 1) }
{
    let start = PAIR_WORDS * r * place_in_table(x, n, r);
    xor_words(x, &table[start..start + PAIR_WORDS * r]);
    block_mix(x, out, r);
}

// The n turns of the second loop, over the table of `first`, which is mixed n times in `x`.
fn mix_with_table(table: &[u32], x: &mut [u32], spare: &mut [u32], n: usize, r: usize)
    requires low { 1 ≤ r }
    requires power { IsPowerOfTwo n }
    requires high { n < 2 ^ 32 }
    requires table { length table.now ≡ 32 * r * n }
    requires x { length x.old ≡ 32 * r }
    requires spare { length spare.old ≡ 32 * r }
    ensures { (first : List ℕ) → IsTable r first n table.now
        → in_order (32 * r) x.old ≡ mixed_times r first n
        → in_order (32 * r) x.new ≡ ro_mix n r first }
{
    'turns: for _i in 0..n / 2 {
        turn(table, x, spare, n, r);
        turn(table, spare, x, n, r);
    }
    if n % 2 == 1 {
        turn(table, x, spare, n, r);
        x.copy_from_slice(spare);
    }
}

/// ROMix of the 2r blocks of `x`, with a table of n times as many words.
pub(crate) fn ro_mix(alloc: Global, x: &mut [u32], n: usize, r: usize) -> Result<(), AllocError>
    requires low { 1 ≤ r }
    requires power { IsPowerOfTwo n }
    requires fits { 32 * r * n < 2 ^ 32 }
    requires x { length x.old ≡ 32 * r }
    ensures { IfOk result (λ _. x.new ≡ ro_mix n r x.old) }
{
    let mut words = vec![in alloc; 0u32; PAIR_WORDS * r]?;
    let mixed = words.as_mut_slice();
    spread(x, TO_DIAGONALS, mixed);
    let table = fill_table(alloc, mixed, x, n, r)?;
    mix_with_table(&table, mixed, x, n, r);
    spread(mixed, FROM_DIAGONALS, x);
    Ok(())
}
