// A hash under way, over the word: feeding it, and its last blocks.
//
// The const parameters are the sizes of the algorithm (`Algorithm`): B a block's bytes, D two blocks, R the digest, and
// N the constants where they are lent. `feed_standard` and `finish_standard` have the standard's constants, for the two
// words that it has. `feed_to` and `finish` take them, for any word and any sizes: other constants give the hash with
// those (specs/Lent), and sizes that do not fit are answered too.
ghost use Rattle.std.specs.Prelude.{◌≡◌, ◌+◌, ◌*◌, ◌<◌, ◌^◌, length, map};
ghost use Rattle.fips180.specs.Fips180 as fips180;
ghost use Rattle.fips180.specs.Hashing as hashing;
ghost use Rattle.fips180.specs.Lent as lent;
ghost use Rattle.fips180.specs.Lent.{lending, Suits};
ghost use Rattle.fips180.specs.State.{held, held_fed};

use crate::algorithm::Algorithm;
use crate::constants::{Constants, Standard};
use crate::rounds::Working;
use crate::word::Word;
use refusals::Refusal;

// The hash value, the bytes that are no whole block yet, and how many bytes came in all.
#[derive(Clone, Copy)]
pub struct State<W, const B: usize> {
    pub chain: Working<W>,
    pub buffer: [u8; B],
    pub total: u32,
}

// A feed's answer, and the next state.
#[derive(Clone, Copy)]
pub struct Fed<W, const B: usize> {
    pub outcome: Result<(), Refusal>,
    pub next: State<W, B>,
}

// Whether code over lent constants takes such a buffer and so many of them.
fn sizes_fit<W: Word>(block: usize, rounds: usize) -> bool
    ensures { result ≡ lent.fits W.sha2 block rounds }
{
    if block != W::BLOCK {
        return false;
    }
    if rounds < 16 {
        return false;
    }
    rounds % 4 == 0
}

impl<W: Word, const B: usize> State<W, B> {
    // The state with the bytes of `s` behind those that came before: whole blocks are compressed straight from `s`.
    fn absorb<K: Constants<W>>(self, s: &[u8], k: &K) -> Self
        requires block { B ≡ fips180.block_bytes W.sha2 }
        requires suits { Suits (K.numbers k.now) }
        requires room { self.total + length s.now < 2 ^ 32 }
        ensures { held W.number result ≡ hashing.absorbed (lending (K.numbers k.now) W.sha2) (held W.number self) s.now }
    {
        let total = self.total as usize;
        let n = s.len();
        let next = (total + n) as u32;
        let used = total % B;
        let need = B - used;
        let chain = self.chain;
        let mut buffer = self.buffer;
        let room = &mut buffer[..];
        slices::copy(&mut room[used..], s);
        if n < need {
            return State {
                chain,
                buffer,
                total: next,
            };
        }
        let c = k.hash_blocks(chain, &buffer);
        let d = k.hash_blocks(c, &s[need..]);
        let at = need + (n - need) / B * B;
        let mut rest = [0u8; B];
        slices::copy(&mut rest, &s[at..]);
        State {
            chain: d,
            buffer: rest,
            total: next,
        }
    }

    // The digest of all that came: the padding (5.1.1 and 5.1.2), the last blocks, of which there are one or two, and
    // the words as bytes.
    fn finish_by<K: Constants<W>, const D: usize, const R: usize>(self, k: &K) -> [u8; R]
        requires block { B ≡ fips180.block_bytes W.sha2 }
        requires suits { Suits (K.numbers k.now) }
        requires two { D ≡ 2 * B }
        requires words { R ≡ 8 * W.sha2.bytes }
        ensures { result ≡ hashing.finish (lending (K.numbers k.now) W.sha2) (held W.number self) }
    {
        let total = self.total as usize;
        let used = total % B;
        let buffer = &self.buffer[..];
        let bits = words::be::bytes64((total as u64) * 8);
        let mut last = [0u8; D];
        let room = &mut last[..];
        slices::copy(room, &buffer[..used]);
        room[used] = 0x80;
        let end = (used + B / 8) / B * B + B;
        let at = end - 8;
        slices::copy(&mut room[at..], &bits);
        digest(k.hash_blocks(self.chain, &room[..end]).words())
    }

    // A feed under a limit on the bytes in all, with the constants lent. Where the sizes do not fit, the state takes no
    // bytes, and every feed is too long for it.
    pub fn feed_to<const N: usize>(self, s: &[u8], limit: u32, k: &[W; N]) -> Fed<W, B>
        ensures any { held_fed W.number result ≡ lent.fed W.sha2 B (map W.number k.now) limit (held W.number self) s.now }
        ensures own { B ≡ fips180.block_bytes W.sha2 → map W.number k.now ≡ W.sha2.constants
            → held_fed W.number result ≡ hashing.feed_to W.sha2 limit (held W.number self) s.now }
    {
        if !sizes_fit::<W>(B, N) {
            return Fed {
                outcome: Err(Refusal::TooLong),
                next: self,
            };
        }
        let total = self.total as usize;
        let most = limit as usize;
        if most < total {
            return Fed {
                outcome: Err(Refusal::TooLong),
                next: self,
            };
        }
        if most - total < s.len() {
            return Fed {
                outcome: Err(Refusal::TooLong),
                next: self,
            };
        }
        let next = self.absorb::<[W; N]>(s, k);
        Fed {
            outcome: Ok(()),
            next,
        }
    }

    // The digest of all that came, with the constants lent: zeros where the sizes do not fit.
    pub fn finish<const N: usize, const D: usize, const R: usize>(self, k: &[W; N]) -> [u8; R]
        ensures any { result ≡ lent.finished W.sha2 B D R (map W.number k.now) (held W.number self) }
        ensures own { B ≡ fips180.block_bytes W.sha2 → D ≡ 2 * B → R ≡ 8 * W.sha2.bytes
            → map W.number k.now ≡ W.sha2.constants → result ≡ hashing.finish W.sha2 (held W.number self) }
    {
        if sizes_fit::<W>(B, N) {
            if D == 2 * B {
                if R == B / 2 {
                    return self.finish_by::<[W; N], D, R>(k);
                }
            }
        }
        [0u8; R]
    }

    // A feed under a limit on the bytes in all, with the standard's constants.
    pub fn feed_standard<const D: usize, const R: usize>(self, s: &[u8], limit: u32) -> Fed<W, B>
    where
        W: Algorithm<B, D, R>,
        ensures { held_fed W.number result ≡ hashing.feed_to W.sha2 limit (held W.number self) s.now }
    {
        let total = self.total as usize;
        let most = limit as usize;
        if most < total {
            return Fed {
                outcome: Err(Refusal::TooLong),
                next: self,
            };
        }
        if most - total < s.len() {
            return Fed {
                outcome: Err(Refusal::TooLong),
                next: self,
            };
        }
        let next = self.absorb::<Standard<B, D, R>>(s, &Standard::<B, D, R>);
        Fed {
            outcome: Ok(()),
            next,
        }
    }

    // The digest of all that came, with the standard's constants.
    pub fn finish_standard<const D: usize, const R: usize>(self) -> [u8; R]
    where
        W: Algorithm<B, D, R>,
        ensures { result ≡ hashing.finish W.sha2 (held W.number self) }
    {
        self.finish_by::<Standard<B, D, R>, D, R>(&Standard::<B, D, R>)
    }
}

// The words of a hash value as bytes.
fn digest<W: Word, const R: usize>(c: [W; 8]) -> [u8; R]
    requires { R ≡ 8 * W.sha2.bytes }
    ensures { result ≡ fips180.digest W.sha2 (map W.number c) }
{
    let mut out = [0u8; R];
    let room = &mut out[..];
    for i in 0..8 {
        c[i].write(&mut room[i * (R / 8)..]);
    }
    out
}
