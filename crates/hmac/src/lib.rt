// HMAC-SHA-256 (RFC 2104) as a state by value: start with a key of any length, feed in parts, finish; and a whole
// message in one call.
//
// The contracts cite specs/Tagging. proofs/Parts has the theorem: a finish after any feeds is RFC 2104's tag of the
// accepted parts joined. Refusals: a key over a message's limit, with a state that refuses every feed; a feed that
// would take the message, without the key block, past it, with the state as it was.
#![tactic(auto)]

ghost use Rattle.std.specs.Prelude.{◌≡◌, ◌≤◌, length};
ghost use Rattle.refusals.specs.Limits.{message_limit};
ghost use Rattle.hmac.specs.Rfc2104 as rfc2104;
ghost use Rattle.hmac.specs.State as state;

use refusals::Refusal;
use sha256::Sha256;

// A tag under way: the inner hash, and the outer hash after its key block.
#[derive(Clone, Copy)]
pub struct Hmac {
    pub inner: Sha256,
    pub outer: Sha256,
}

// The answer of a start or a feed, and the next state.
#[derive(Clone, Copy)]
pub struct Keyed {
    pub outcome: Result<(), Refusal>,
    pub next: Hmac,
}

// The answer for a whole message: zeros where it or the key is refused.
#[derive(Clone, Copy)]
pub struct Tagged {
    pub outcome: Result<(), Refusal>,
    pub tag: [u8; 32],
}

// Each byte of a key block XOR the byte `c`.
fn xor_each(b: [u8; 64], c: u8) -> [u8; 64]
    ensures { result ≡ rfc2104.xor_each c b }
{
    let mut out = b;
    for x in out.iter_mut() {
        *x ^= c;
    }
    out
}

// The key as a block: hashed first where it is longer, then zeros behind it.
fn key_block(key: &[u8]) -> [u8; 64]
    requires { length key.now ≤ message_limit }
    ensures { result ≡ state.key_block key.now }
{
    let mut b = [0u8; 64];
    if key.len() <= 64 {
        slices::copy(&mut b, key);
        return b;
    }
    let d = sha256::hash(key).digest;
    slices::copy(&mut b, &d);
    b
}

impl Hmac {
    // A tag of nothing yet under a key block.
    fn begin(b: [u8; 64]) -> Self
        ensures { result ≡ state.begun b }
    {
        let ipad = xor_each(b, 0x36);
        let opad = xor_each(b, 0x5c);
        let inner = Sha256::start().feed(&ipad).next;
        let outer = Sha256::start().feed(&opad).next;
        Hmac { inner, outer }
    }

    // The state of a refused key: it refuses every feed.
    fn close() -> Self
        ensures { result ≡ state.closed }
    {
        Hmac {
            inner: Sha256 {
                chain: [0u32; 8],
                buffer: [0u8; 64],
                total: 0xffff_ffff,
            },
            outer: Sha256 {
                chain: [0u32; 8],
                buffer: [0u8; 64],
                total: 0xffff_ffff,
            },
        }
    }

    // A tag under `key`.
    pub fn start(key: &[u8]) -> Keyed
        ensures { result ≡ state.started key.now }
    {
        if refusals::limits::message_fits(key.len()) {
            return Keyed {
                outcome: Ok(()),
                next: Hmac::begin(key_block(key)),
            };
        }
        Keyed {
            outcome: Err(Refusal::TooLong),
            next: Hmac::close(),
        }
    }

    // The bytes of `s` after those that came before. The inner hash has the key block before the message.
    pub fn feed(self, s: &[u8]) -> Keyed
        ensures { result ≡ state.fed self s.now }
    {
        let outer = self.outer;
        let f = self
            .inner
            .feed_to(s, refusals::limits::MESSAGE_LIMIT as u32 + 64);
        let outcome = f.outcome;
        let inner = f.next;
        Keyed {
            outcome,
            next: Hmac { inner, outer },
        }
    }

    // The tag of all that came.
    pub fn finish(self) -> [u8; 32]
        ensures { result ≡ state.finished self }
    {
        let d = self.inner.finish();
        self.outer.feed(&d).next.finish()
    }
}

// The tag of a whole message under `key`.
pub fn tag(key: &[u8], m: &[u8]) -> Tagged
    ensures { result ≡ state.tagged key.now m.now }
{
    if refusals::limits::message_fits(key.len()) {
        if refusals::limits::message_fits(m.len()) {
            let tag = Hmac::start(key).next.feed(m).next.finish();
            return Tagged {
                outcome: Ok(()),
                tag,
            };
        }
    }
    Tagged {
        outcome: Err(Refusal::TooLong),
        tag: [0u8; 32],
    }
}
