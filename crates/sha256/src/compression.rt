// The compression of blocks into the hash value.
ghost use Rattle.std.specs.Prelude.{◌≡◌, ◌/◌, ◌<◌, length, slice_index};
ghost use Rattle.sha256.specs.Sha256.{K, extended, round, rounds, added, block_step, hash_value};

use crate::constants::ROUND_CONSTANTS;
use crate::functions::{big_sigma0, big_sigma1, choose, majority};
use crate::schedule::{block_words, next_window};
use std::array;

// One round on the words a to h. Sums wrap, as the standard has them.
#[tactic(auto, unfolding(crate::specs::Sha256::round))]
fn one_round(v: [u32; 8], k: u32, w: u32) -> [u32; 8]
    ensures { result ≡ round v k w }
{
    let [a, b, c, d, e, f, g, h] = v;
    let t1 = h
        .wrapping_add(big_sigma1(e))
        .wrapping_add(choose(e, f, g))
        .wrapping_add(k)
        .wrapping_add(w);
    let t2 = big_sigma0(a).wrapping_add(majority(a, b, c));
    [t1.wrapping_add(t2), a, b, c, d.wrapping_add(t1), e, f, g]
}

// The round that takes the constant and the word at place `i`.
fn round_at(v: [u32; 8], k: &[u32; 16], w: &[u32; 16], i: usize) -> [u32; 8]
    requires { i < 16 }
    ensures { result ≡ round v (slice_index k.now i) (slice_index w.now i) }
{
    one_round(v, k[i], w[i])
}

// Sixteen rounds. They are written out, so that a to h change names between them and are never moved.
// Kept: a fold over the constants and words was tried, and ran at 0.84 to 0.94 of portable C, where the bar is 0.9.
fn sixteen_rounds(v: [u32; 8], k: &[u32; 16], w: &[u32; 16]) -> [u32; 8]
    ensures { result ≡ rounds v k.now w.now 16 }
{
    let v1 = round_at(v, k, w, 0);
    let v2 = round_at(v1, k, w, 1);
    let v3 = round_at(v2, k, w, 2);
    let v4 = round_at(v3, k, w, 3);
    let v5 = round_at(v4, k, w, 4);
    let v6 = round_at(v5, k, w, 5);
    let v7 = round_at(v6, k, w, 6);
    let v8 = round_at(v7, k, w, 7);
    let v9 = round_at(v8, k, w, 8);
    let v10 = round_at(v9, k, w, 9);
    let v11 = round_at(v10, k, w, 10);
    let v12 = round_at(v11, k, w, 11);
    let v13 = round_at(v12, k, w, 12);
    let v14 = round_at(v13, k, w, 13);
    let v15 = round_at(v14, k, w, 14);
    round_at(v15, k, w, 15)
}

// The rounds of a block whose words are `first`, sixteen to a turn, each turn with the next window of the schedule.
// The window moves at the start of a turn and not at its end, so that the last turn makes no words that nobody reads.
fn all_rounds(hash: [u32; 8], first: [u32; 16]) -> [u32; 8]
    ensures { result ≡ rounds hash K (extended first 48) 64 }
{
    let mut v = hash;
    let mut w = first;
    for (j, k) in ROUND_CONSTANTS.iter().enumerate() {
        if j > 0 {
            let next = next_window(w);
            w = next;
        }
        let after = sixteen_rounds(v, k, &w);
        v = after;
    }
    v
}

// Two hash values added word by word.
fn add(x: [u32; 8], y: [u32; 8]) -> [u32; 8]
    ensures { result ≡ added x y }
{
    array::from_fn(|i| x[i].wrapping_add(y[i]))
}

// The hash value after one more block.
#[tactic(auto, unfolding(crate::specs::Sha256::block_step))]
fn compress(hash: [u32; 8], block: &[u8; 64]) -> [u32; 8]
    ensures { result ≡ block_step hash block.now }
{
    let w = block_words(block);
    let v = all_rounds(hash, w);
    add(hash, v)
}

// The hash value after the whole blocks of `bytes`; what is left over at the end is not read.
pub(crate) fn compress_blocks(hash: [u32; 8], bytes: &[u8]) -> [u32; 8]
    ensures { result ≡ hash_value hash bytes.now (length bytes.now / 64) }
{
    let (blocks, _) = bytes.as_chunks::<64>();
    blocks.iter().fold(hash, compress)
}
