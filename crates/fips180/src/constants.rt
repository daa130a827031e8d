// With which constants blocks are hashed: the standard's, or those that a caller lends.
ghost use Rattle.std.specs.Prelude.{◌≡◌, List, ℕ, map};
ghost use Rattle.fips180.specs.Lent as lent;
ghost use Rattle.fips180.specs.Lent.{Suits};
ghost use Rattle.fips180.specs.Working.{words as words_of};

use crate::algorithm::Algorithm;
use crate::block::blocks;
use crate::reading::Own;
use crate::rounds::Working;
use crate::word::Word;

// Constants for a word.
pub(crate) trait Constants<W: Word> {
    // The numbers.
    ghost numbers: { Self → List ℕ };

    // The hash value after every whole block of `s`.
    fn hash_blocks(&self, h: Working<W>, s: &[u8]) -> Working<W>
        requires { Suits (numbers self.now) }
        ensures { words_of W.number result ≡ lent.hash_blocks (numbers self.now) W.sha2 (words_of W.number h) s.now };
}

// The standard's, as `Algorithm` has them.
pub(crate) struct Standard<const B: usize, const D: usize, const R: usize>;

impl<W: Algorithm<B, D, R>, const B: usize, const D: usize, const R: usize> Constants<W>
    for Standard<B, D, R> {
    ghost numbers = { λ s. W.sha2.constants };

    fn hash_blocks(&self, h: Working<W>, s: &[u8]) -> Working<W>
        requires { Suits W.sha2.constants }
        ensures { words_of W.number result ≡ lent.hash_blocks W.sha2.constants W.sha2 (words_of W.number h) s.now }
    {
        W::hash_blocks(h, s)
    }
}

// A caller's.
impl<W: Word, const N: usize> Constants<W> for [W; N] {
    ghost numbers = { λ k. map W.number k };

    fn hash_blocks(&self, h: Working<W>, s: &[u8]) -> Working<W>
        requires { Suits (map W.number self.now) }
        ensures { words_of W.number result ≡ lent.hash_blocks (map W.number self.now) W.sha2 (words_of W.number h) s.now }
    {
        blocks::<W, Own, N>(h, s, self)
    }
}
