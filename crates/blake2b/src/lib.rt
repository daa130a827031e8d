// BLAKE2b without a key (RFC 7693) as a state by value: start with a digest length, feed in parts, finish.
//
// The contracts cite specs/State. proofs/Parts has the theorem: the first nn bytes of a finish after any feeds are the
// RFC's hash of the accepted parts joined. `finish` gives all 64 bytes of the final h, since an array has a fixed length;
// the digest is the first nn of them. A digest length is any byte: one outside 1 to 64, which the RFC does not have, goes
// into h as it is. Refusal: a feed that would take the message past its limit, with the state as it was.
// Every value of the struct is a state; how many bytes of the buffer are pending follows from the total.
#![tactic(auto)]

ghost use Rattle.std.specs.Prelude.{◌≡◌, ◌+◌, ◌<◌, ◌^◌, length};
ghost use Rattle.blake2b.specs.Rfc7693 as rfc7693;
ghost use Rattle.blake2b.specs.State as state;

use refusals::Refusal;

mod block;
mod mixing;
mod tables;

// A hash under way: the chaining words, the bytes of the last block so far, and how many bytes came in all.
#[derive(Clone, Copy)]
pub struct Blake2b {
    pub chain: [u64; 8],
    pub buffer: [u8; 128],
    pub total: u32,
}

// A feed's answer, and the next state.
#[derive(Clone, Copy)]
pub struct Fed {
    pub outcome: Result<(), Refusal>,
    pub next: Blake2b,
}

// 3.3: how many blocks come before the last.
fn blocks_before(n: usize) -> usize
    ensures { result ≡ rfc7693.blocks_before n }
{
    n.saturating_sub(1) / 128
}

// How many of n bytes are in the last block.
fn waiting(n: usize) -> usize
    ensures { result ≡ state.waiting n }
{
    n - 128 * blocks_before(n)
}

impl Blake2b {
    // A hash of nothing yet, with a digest length (3.3).
    pub fn start(nn: u8) -> Self
        ensures { result ≡ state.started nn }
    {
        let mut chain = tables::IV;
        chain[0] = chain[0] ^ 0x0101_0000 ^ (nn as u64);
        Blake2b {
            chain,
            buffer: [0u8; 128],
            total: 0,
        }
    }

    // The bytes that are not compressed yet, padded with zeros to a block.
    fn last_block(self) -> [u8; 128]
        ensures { result ≡ rfc7693.padded (state.pending self) }
    {
        let used = waiting(self.total as usize);
        let buffer = self.buffer;
        let mut last = [0u8; 128];
        slices::copy(&mut last, &buffer[..used]);
        last
    }

    // The state with the bytes of `s` behind those that came before: blocks but the last are compressed straight from `s`.
    fn absorb(self, s: &[u8]) -> Self
        requires { self.total + length s.now < 2 ^ 32 }
        ensures { result ≡ state.absorbed self s.now }
    {
        let total = self.total as usize;
        let n = s.len();
        let next = (total + n) as u32;
        let used = waiting(total);
        let room = 128 - used;
        let chain = self.chain;
        let mut buffer = self.last_block();
        slices::copy(&mut buffer[used..], s);
        if n <= room {
            return Blake2b {
                chain,
                buffer,
                total: next,
            };
        }
        let c = block::compress(chain, &buffer, (total + room) as u64, false);
        let d = block::blocks(c, &s[room..], total + room);
        let at = room + 128 * blocks_before(n - room);
        let mut rest = [0u8; 128];
        slices::copy(&mut rest, &s[at..]);
        Blake2b {
            chain: d,
            buffer: rest,
            total: next,
        }
    }

    // The bytes of `s` after those that came before, within the limit of a message.
    pub fn feed(self, s: &[u8]) -> Fed
        ensures { result ≡ state.fed self s.now }
    {
        let total = self.total as usize;
        let most = refusals::limits::MESSAGE_LIMIT;
        if most < total || most - total < s.len() {
            return Fed {
                outcome: Err(Refusal::TooLong),
                next: self,
            };
        }
        let next = self.absorb(s);
        Fed {
            outcome: Ok(()),
            next,
        }
    }

    // The bytes of h after the last block: the digest is the first nn of them.
    pub fn finish(self) -> [u8; 64]
        ensures { result ≡ state.finished self }
    {
        let total = self.total as u64;
        let chain = self.chain;
        let last = self.last_block();
        let c = block::compress(chain, &last, total, true);
        serialize(c)
    }
}

// 3.3: the words of h as bytes.
fn serialize(c: [u64; 8]) -> [u8; 64]
    ensures { result ≡ rfc7693.serialize c }
{
    let mut out = [0u8; 64];
    for (i, word) in c.iter().enumerate() {
        slices::put(&mut out, i * 8, &words::le::bytes64(*word));
    }
    out
}
