// FIPS 180-4, figure 1 and 4.2: the sizes of the two algorithms, and their blocks hashed with their constants.
//
// The sizes are const parameters, since an array's length may be one and may not be a constant of the trait. What ties
// them to the word is the law `sizes`, and what ties the constants is the contract of `hash_blocks`: each impl proves
// both, so that no function over the algorithm requires them.
ghost use Rattle.std.specs.Prelude.{◌≡◌, refl};
ghost use Rattle.fips180.specs.Blocked.{HasSizes};
ghost use Rattle.fips180.specs.Fips180 as fips180;
ghost use Rattle.fips180.specs.Working.{words as words_of};

use crate::block::blocks;
use crate::reading::Straight;
use crate::rounds::Working;
use crate::tables;
use crate::word::Word;

// The algorithm of a word: B a block's bytes, D two blocks, R the digest.
pub trait Algorithm<const B: usize, const D: usize, const R: usize>: Word {
    // The hash value after every whole block of `s`.
    fn hash_blocks(h: Working<Self>, s: &[u8]) -> Working<Self>
        ensures { words_of Self.number result ≡ fips180.hash_blocks Self.sha2 (words_of Self.number h) (fips180.parse Self.sha2 s.now) };

    ghost sizes: { HasSizes Self.sha2 B D R };
}

impl Algorithm<64, 128, 32> for u32 {
    ghost sizes = { record { bytes = refl; two = refl; words = refl } };

    #[tactic(auto, unfolding(crate::specs::Fips180::Constants::k256))]
    fn hash_blocks(h: Working<u32>, s: &[u8]) -> Working<u32>
        ensures { words_of (λ x. x) result ≡ fips180.hash_blocks fips180.sha256 (words_of (λ x. x) h) (fips180.parse fips180.sha256 s.now) }
    {
        // A copy, since where the constants' place is known, each reading of one computes it anew.
        let k = tables::K256;
        blocks::<u32, Straight, 64>(h, s, &k)
    }
}

impl Algorithm<128, 256, 64> for u64 {
    ghost sizes = { record { bytes = refl; two = refl; words = refl } };

    #[tactic(auto, unfolding(crate::specs::Fips180::Constants::k512))]
    fn hash_blocks(h: Working<u64>, s: &[u8]) -> Working<u64>
        ensures { words_of (λ x. x) result ≡ fips180.hash_blocks fips180.sha512 (words_of (λ x. x) h) (fips180.parse fips180.sha512 s.now) }
    {
        // No copy: its 640 bytes would cost a message of one block 3 % and save a long one 0.5 %.
        blocks::<u64, Straight, 80>(h, s, &tables::K512)
    }
}
