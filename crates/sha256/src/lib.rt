// SHA-256 (FIPS 180-4) as a state by value: start, feed in parts, finish; and a whole message in one call.
//
// The code is fips180's, at this word; the contracts cite its Hashing. proofs/Parts has the theorem: a finish after any
// feeds is the standard's hash of the accepted parts joined. Refusal: a feed that would take the message past its limit,
// with the state as it was. Every value of the struct is a state; how many bytes of the buffer are pending follows from
// the total.
#![tactic(auto)]

ghost use Rattle.std.specs.Prelude.{◌≡◌};
ghost use Rattle.fips180.specs.State.{held};
ghost use Rattle.sha256.specs.State as state;

use fips180::{State, Working};
use refusals::Refusal;

mod tables;

// A hash under way: the chaining words, the bytes that are no whole block yet, and how many bytes came in all.
#[derive(Clone, Copy)]
pub struct Sha256 {
    pub chain: [u32; 8],
    pub buffer: [u8; 64],
    pub total: u32,
}

// A feed's answer, and the next state.
#[derive(Clone, Copy)]
pub struct Fed {
    pub outcome: Result<(), Refusal>,
    pub next: Sha256,
}

// The answer for a whole message: zeros where it is refused.
#[derive(Clone, Copy)]
pub struct Hashed {
    pub outcome: Result<(), Refusal>,
    pub digest: [u8; 32],
}

impl Sha256 {
    // A hash of nothing yet (5.3.3).
    pub fn start() -> Self
        ensures { result ≡ state.started }
    {
        Sha256 {
            chain: tables::IV,
            buffer: [0u8; 64],
            total: 0,
        }
    }

    // The same state, over the word.
    fn state(self) -> State<u32, 64>
        ensures { held (λ x. x) result ≡ state.held self }
    {
        let chain = self.chain;
        let buffer = self.buffer;
        State {
            chain: Working::of(chain),
            buffer,
            total: self.total,
        }
    }

    // And back.
    fn of(s: State<u32, 64>) -> Self
        ensures { state.held result ≡ held (λ x. x) s }
    {
        let chain = s.chain.words();
        let buffer = s.buffer;
        Sha256 {
            chain,
            buffer,
            total: s.total,
        }
    }

    // A feed under a limit on the bytes in all.
    pub fn feed_to(self, s: &[u8], limit: u32) -> Fed
        ensures { result ≡ state.fed_to limit self s.now }
    {
        let fed = self.state().feed_standard::<128, 32>(s, limit);
        Fed {
            outcome: fed.outcome,
            next: Sha256::of(fed.next),
        }
    }

    // The bytes of `s` after those that came before, within the limit of a message.
    pub fn feed(self, s: &[u8]) -> Fed
        ensures { result ≡ state.fed self s.now }
    {
        self.feed_to(s, refusals::limits::MESSAGE_LIMIT as u32)
    }

    // The digest of all that came: the padding (5.1.1), the last blocks, and the words as bytes.
    pub fn finish(self) -> [u8; 32]
        ensures { result ≡ state.finished self }
    {
        self.state().finish_standard::<128, 32>()
    }
}

// The digest of a whole message.
pub fn hash(m: &[u8]) -> Hashed
    ensures { result ≡ state.hashed m.now }
{
    if refusals::limits::message_fits(m.len()) {
        let digest = Sha256::start().feed(m).next.finish();
        return Hashed {
            outcome: Ok(()),
            digest,
        };
    }
    Hashed {
        outcome: Err(Refusal::TooLong),
        digest: [0u8; 32],
    }
}
