// The message schedule, of which only a window of sixteen words is held at a time.
ghost use Rattle.std.specs.Prelude.{◌≡◌};
ghost use Rattle.sha256.specs.Sha256.{M, scheduled};
ghost use Rattle.sha256.specs.Working.{moved, window};

use crate::functions::{small_sigma0, small_sigma1};
use std::array;

// The sixteen words of a block.
pub(crate) fn block_words(block: &[u8; 64]) -> [u32; 16]
    ensures { result ≡ M block.now }
{
    let (words, _) = block.as_chunks::<4>();
    array::from_fn(|t| u32::from_be_bytes(words[t]))
}

// The word that follows the window.
fn word_after(w: &[u32; 16]) -> u32
    ensures { result ≡ scheduled w.now 16 }
{
    small_sigma1(w[14])
        .wrapping_add(w[9])
        .wrapping_add(small_sigma0(w[1]))
        .wrapping_add(w[0])
}

// The window moved on by one word.
#[tactic(auto, unfolding(crate::specs::Working::moved))]
fn next_word(w: [u32; 16]) -> [u32; 16]
    ensures { result ≡ moved w }
{
    let next = word_after(&w);
    [
        w[1], w[2], w[3], w[4], w[5], w[6], w[7], w[8], w[9], w[10], w[11], w[12], w[13], w[14],
        w[15], next,
    ]
}

// The window moved on by its whole width.
pub(crate) fn next_window(w: [u32; 16]) -> [u32; 16]
    ensures { result ≡ window w 16 }
{
    (0..16usize).fold(
        w,
        |w, _| -> [u32; 16]
            ensures { result ≡ moved w }
        { next_word(w) },
    )
}
