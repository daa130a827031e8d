// The inner stream (document 02, Item 1): a stretch of bytes at a position of the stream, covered or uncovered, straight
// from the inner key; and the state that carries over from one password to the next.
//
// The contracts cite specs/InnerStream, specs/State, and through them the crate stream's `apply`, which both ciphers
// share. Covering and uncovering are one operation. `apply` refuses with 9 for an algorithm that is not 2 or 3; 1 for a
// key, or a position and a length together, over 4,194,304; 17. A start gives 9, then 1 for the key; a stretch of a
// state 19 where its start was refused or no call could have left its position, then 1, 17. Nothing is written before
// all is settled, and a refused stretch leaves the state as it was. A stretch makes its own blocks and no others.
#![tactic(auto)]

ghost use Rattle.std.specs.Prelude.{◌≡◌, true, ◌+◌, ◌^◌, ◌≤◌, ◌<◌, length, take, drop};
ghost use Rattle.refusals.specs.Limits.{message_limit};
ghost use Rattle.slices.specs.Over.{over};
ghost use Rattle.fips180.specs.Fips180 as fips180;
ghost use Rattle.inner_stream.specs.InnerStream as inner;
ghost use Rattle.inner_stream.specs.State as state;

use chacha20::ChaCha20;
use refusals::Refusal;
use salsa20::Salsa20;

// Salsa20's nonce.
pub const SALSA20_NONCE: [u8; 8] = [0xe8, 0x30, 0x09, 0x4b, 0x97, 0x20, 0x5d, 0x2a];

// The cipher of a stream; none where its start was refused.
#[derive(Clone, Copy)]
pub enum StreamCipher {
    Salsa20,
    ChaCha20,
    Closed,
}

// A stream under way: the cipher, its key and nonce, and the position of the next byte. Salsa20's nonce is fixed: zeros
// stand here in its place.
#[derive(Clone, Copy)]
pub struct InnerStream {
    pub cipher: StreamCipher,
    pub key: [u8; 32],
    pub nonce: [u8; 12],
    pub position: u64,
}

// The answer of a start, and the state.
#[derive(Clone, Copy)]
pub struct Started {
    pub outcome: Result<(), Refusal>,
    pub next: InnerStream,
}

// The answer of a stretch, and the state behind it.
#[derive(Clone, Copy)]
pub struct Applied {
    pub written: Result<usize, Refusal>,
    pub next: InnerStream,
}

// Whether an algorithm is Salsa20 or ChaCha20.
fn is_listed(algorithm: u32) -> bool
    ensures { result ≡ inner.listed algorithm }
{
    matches!(algorithm, 2 | 3)
}

// Whether there is a cipher.
fn has_cipher(cipher: StreamCipher) -> bool
    ensures { result ≡ state.has_cipher cipher }
{
    match cipher {
        StreamCipher::Salsa20 => true,
        StreamCipher::ChaCha20 => true,
        StreamCipher::Closed => false,
    }
}

// ChaCha20's key: the first 32 bytes of a hash.
fn chacha20_key(h: [u8; 64]) -> [u8; 32]
    ensures { result ≡ take 32 h }
{
    let mut key = [0u8; 32];
    key.copy_from_slice(&h[..32]);
    key
}

// ChaCha20's nonce: the next 12.
fn chacha20_nonce(h: [u8; 64]) -> [u8; 12]
    ensures { result ≡ take 12 (drop 32 h) }
{
    let mut nonce = [0u8; 12];
    nonce.copy_from_slice(&h[32..44]);
    nonce
}

// SHA-512 of a key.
fn sha512_of(key: &[u8]) -> [u8; 64]
    requires { length key.now ≤ message_limit }
    ensures { result ≡ fips180.hash fips180.sha512 key.now }
{
    sha512::hash(key).digest
}

// SHA-256 of a key.
fn sha256_of(key: &[u8]) -> [u8; 32]
    requires { length key.now ≤ message_limit }
    ensures { result ≡ fips180.hash fips180.sha256 key.now }
{
    sha256::hash(key).digest
}

// Which stretches are taken: 1 where it ends too far, 17 where the output is too short.
fn plan(position: u64, n: usize, room: usize) -> Result<usize, Refusal>
    ensures { result ≡ inner.planned position n room }
{
    if refusals::limits::stretch_fits(position, n) {
        if n <= room {
            return Ok(n);
        }
        return Err(Refusal::NoRoom);
    }
    Err(Refusal::TooLong)
}

impl InnerStream {
    // The stream of an algorithm, 2 or 3, and an inner key, from its first byte on. 9, 1.
    pub fn start(algorithm: u32, key: &[u8]) -> Started
        ensures { result ≡ state.started algorithm key.now }
    {
        if is_listed(algorithm) {
            if refusals::limits::stream_key_fits(key.len()) {
                return Started {
                    outcome: Ok(()),
                    next: InnerStream::at(algorithm, key, 0),
                };
            }
            return InnerStream::refuse(Refusal::TooLong);
        }
        InnerStream::refuse(Refusal::Unlisted(0))
    }

    // The stream of an algorithm, 3 or 2, and a key, at a position.
    fn at(algorithm: u32, key: &[u8], position: u64) -> Self
        requires { length key.now ≤ message_limit }
        ensures { result ≡ state.stream_at algorithm key.now position }
    {
        if algorithm == 3 {
            let h = sha512_of(key);
            return InnerStream {
                cipher: StreamCipher::ChaCha20,
                key: chacha20_key(h),
                nonce: chacha20_nonce(h),
                position,
            };
        }
        InnerStream {
            cipher: StreamCipher::Salsa20,
            key: sha256_of(key),
            nonce: [0u8; 12],
            position,
        }
    }

    // A refused start.
    fn refuse(r: Refusal) -> Started
        ensures { result ≡ state.refused r }
    {
        Started {
            outcome: Err(r),
            next: InnerStream {
                cipher: StreamCipher::Closed,
                key: [0u8; 32],
                nonce: [0u8; 12],
                position: 0,
            },
        }
    }

    // Whether the stream goes on: not where its start was refused, nor where no call could have left its position.
    fn is_open(self) -> bool
        ensures { result ≡ state.is_open self }
    {
        let cipher = self.cipher;
        if has_cipher(cipher) {
            return refusals::limits::stretch_fits(self.position, 0);
        }
        false
    }

    // Applies the stream to `out`, whose first byte stands at the stream's position.
    fn cover(self, out: &mut [u8])
        requires { state.has_cipher self.cipher ≡ true }
        ensures { out.new ≡ state.covered self out.old }
    {
        let cipher = self.cipher;
        let key = self.key;
        let nonce = self.nonce;
        match cipher {
            StreamCipher::Salsa20 => Salsa20::apply(key, SALSA20_NONCE, self.position, out),
            StreamCipher::ChaCha20 => ChaCha20::apply(key, nonce, self.position, out),
            StreamCipher::Closed => {}
        }
    }

    // Fills `out` with as many bytes, the stream applied.
    fn fill(self, bytes: &[u8], out: &mut [u8])
        requires cipher_value { state.has_cipher self.cipher ≡ true }
        requires bytes_len { length bytes.now ≡ length out.old }
        ensures { out.new ≡ state.covered self bytes.now }
    {
        slices::copy(out, bytes);
        self.cover(out);
    }

    // A stretch at the stream's position, into the front of `out`. 1, 17.
    fn write(self, bytes: &[u8], out: &mut [u8]) -> Result<usize, Refusal>
        requires { state.has_cipher self.cipher ≡ true }
        ensures value { result ≡ inner.planned self.position (length bytes.now) (length out.old) }
        ensures out_after { out.new ≡ over (inner.due result (state.covered self bytes.now)) out.old }
    {
        match plan(self.position, bytes.len(), out.len()) {
            Err(r) => return Err(r),
            Ok(n) => {
                self.fill(bytes, &mut out[..n]);
                return Ok(n);
            }
        }
    }

    // The next stretch, covered or uncovered into the front of `out`, and the stream behind it. 19, 1, 17.
    pub fn apply(self, bytes: &[u8], out: &mut [u8]) -> Applied
        ensures value { result ≡ state.applied self bytes.now (length out.old) }
        ensures out_after { out.new ≡ over (state.handed self bytes.now (length out.old)) out.old }
    {
        if self.is_open() {
            match self.write(bytes, out) {
                Ok(n) => return self.behind(n),
                Err(r) => return self.keep(r),
            }
        }
        self.keep(Refusal::OutOfSequence)
    }

    // The answer of n bytes, and the stream behind them.
    fn behind(self, n: usize) -> Applied
        requires { self.position + n < 2 ^ 64 }
        ensures { result ≡ state.left self (Ok n) }
    {
        let cipher = self.cipher;
        let key = self.key;
        let nonce = self.nonce;
        Applied {
            written: Ok(n),
            next: InnerStream {
                cipher,
                key,
                nonce,
                position: self.position + n as u64,
            },
        }
    }

    // A refusal, and the stream as it was.
    fn keep(self, r: Refusal) -> Applied
        ensures { result ≡ state.left self (Err r) }
    {
        Applied {
            written: Err(r),
            next: self,
        }
    }
}

// Covers or uncovers the bytes of a stretch at a position of the stream, into the front of `out`. 9, 1, 17.
pub fn apply(
    algorithm: u32,
    key: &[u8],
    position: u64,
    bytes: &[u8],
    out: &mut [u8],
) -> Result<usize, Refusal>
    ensures value { result ≡ inner.applying algorithm key.now position bytes.now (length out.old) }
    ensures out_after { out.new ≡ over (inner.applied_bytes algorithm key.now position bytes.now (length out.old)) out.old }
{
    if is_listed(algorithm) {
        if refusals::limits::stream_key_fits(key.len()) {
            let stream = InnerStream::at(algorithm, key, position);
            return stream.write(bytes, out);
        }
        return Err(Refusal::TooLong);
    }
    Err(Refusal::Unlisted(0))
}
