// AES-KDF (document 01, "Keys"): the composite key's two halves, each encrypted R times under AES-256 with the KDF's
// seed, as a state by value that is advanced a number of rounds at a time.
//
// The contracts cite specs/AesKdf. Refusals: 11 where the rounds are above the limit, with a state of a mark of its
// own; 19 where T is asked for before the end, or of a refused state. The rounds done and the halves as they stand
// after that many are fields of the state. Every value of the struct is a state: one that is refused, or that no call
// could have made, stays as it is. Table look-ups of AES are not constant-time.
#![tactic(auto)]

ghost use Rattle.std.specs.Prelude.{◌≡◌, min};
ghost use Rattle.aes_kdf.specs.AesKdf as kdf;
ghost use Rattle.aes_kdf.specs.State as state;

use aes::RoundKeys;
use refusals::Refusal;
use sha256::Sha256;

// Whether the rounds were accepted.
#[derive(Clone, Copy)]
pub enum Mark {
    Accepted,
    Refused,
}

// A key transformation under way: its round keys, the halves after `done` of `rounds` rounds.
#[derive(Clone, Copy)]
pub struct Transformation {
    pub mark: Mark,
    pub keys: RoundKeys,
    pub left: [u8; 16],
    pub right: [u8; 16],
    pub done: u32,
    pub rounds: u32,
}

// The answer of a start, and the state.
#[derive(Clone, Copy)]
pub struct Started {
    pub outcome: Result<(), Refusal>,
    pub next: Transformation,
}

// The transformed key T: zeros where it is refused.
#[derive(Clone, Copy)]
pub struct Transformed {
    pub outcome: Result<(), Refusal>,
    pub key: [u8; 32],
}

// The lesser of two numbers.
fn least(a: u64, b: u32) -> u32
    ensures { result ≡ min a b }
{
    if a < (b as u64) {
        return a as u32;
    }
    b
}

impl Transformation {
    // The halves of a composite key before any round, under the seed's round keys.
    pub fn start(composite: [u8; 32], seed: [u8; 32], rounds: u64) -> Started
        ensures { result ≡ state.started composite seed rounds }
    {
        if refusals::limits::rounds_fit(rounds) {
            let mut left = [0u8; 16];
            let mut right = [0u8; 16];
            slices::copy(&mut left, &composite);
            slices::copy(&mut right, &composite[16..]);
            return Started {
                outcome: Ok(()),
                next: Transformation {
                    mark: Mark::Accepted,
                    keys: RoundKeys::expand(seed),
                    left,
                    right,
                    done: 0,
                    rounds: rounds as u32,
                },
            };
        }
        Started {
            outcome: Err(Refusal::TooManyRounds(0)),
            next: Transformation::refuse(),
        }
    }

    // The state of refused rounds: zero but for its mark.
    fn refuse() -> Self
        ensures { result ≡ state.refused }
    {
        let words = [0u32; 60];
        Transformation {
            mark: Mark::Refused,
            keys: RoundKeys { words },
            left: [0u8; 16],
            right: [0u8; 16],
            done: 0,
            rounds: 0,
        }
    }

    // Whether rounds can be done and T asked for: not of a refused state, nor of one that no call could have made.
    fn is_open(self) -> bool
        ensures { result ≡ kdf.is_open (state.held self) }
    {
        match self.mark {
            Mark::Accepted => {
                refusals::limits::rounds_fit(self.rounds as u64) && self.done <= self.rounds
            }
            Mark::Refused => false,
        }
    }

    // How many rounds are left to do.
    fn remaining(self) -> u32
        ensures { result ≡ kdf.remaining (state.held self) }
    {
        if self.is_open() {
            return self.rounds - self.done;
        }
        0
    }

    // The next n rounds, or what remains (document 01: a helping of n).
    pub fn advance(self, n: u64) -> Self
        ensures { result ≡ state.advanced n self }
    {
        let k = least(n, self.remaining());
        let mark = self.mark;
        let keys = self.keys;
        let left = self.left;
        let right = self.right;
        Transformation {
            mark,
            keys,
            left: aes::encrypt_repeated(keys, left, k),
            right: aes::encrypt_repeated(keys, right, k),
            done: self.done + k,
            rounds: self.rounds,
        }
    }

    // T, once all rounds are done.
    pub fn finish(self) -> Transformed
        ensures { result ≡ state.finished self }
    {
        if self.is_open() && self.done == self.rounds {
            return self.joined();
        }
        Transformed {
            outcome: Err(Refusal::OutOfSequence),
            key: [0u8; 32],
        }
    }

    // SHA-256 of the two halves joined.
    fn joined(self) -> Transformed
        ensures { result ≡ state.joined self }
    {
        let left = self.left;
        let right = self.right;
        let key = Sha256::start().feed(&left).next.feed(&right).next.finish();
        Transformed {
            outcome: Ok(()),
            key,
        }
    }
}
