// What opening a vault means (document 01, "File after the header"): whole, block by block, and by the plain opener of
// demand 3.
//
// The types of the openers' states and answers stand here; the code is in the crates opener and open_whole. specs/ has
// the definitions that its contracts cite, and Agreement the claim of demand 3; proofs/Theorem proves it.
#![tactic(auto)]

use aes::RoundKeys;
use ciphers::Cipher;
use refusals::Refusal;

// What T and a header give: AES-256 has round keys, ChaCha20 its key, and what the other one would need is zero.
// ChaCha20's nonce is the first twelve bytes.
#[derive(Clone, Copy)]
pub struct Keys {
    pub cipher: Cipher,
    pub key: [u8; 32],
    pub round_keys: RoundKeys,
    pub nonce: [u8; 16],
    pub base: [u8; 64],
}

// Whether a state takes steps, is closed by a refusal, or has ended.
#[derive(Clone, Copy)]
pub enum Phase {
    Open,
    Closed,
    Ended,
}

// An opening block by block: the number and the place of the next block, how many bytes of ciphertext were taken, the
// ciphertext piece before the held bytes, and the held bytes. How many are held follows from `taken`.
#[derive(Clone, Copy)]
pub struct Opener {
    pub phase: Phase,
    pub number: u64,
    pub at: usize,
    pub taken: usize,
    pub prev: [u8; 16],
    pub held: [u8; 16],
    pub keys: Keys,
}

// A start's answer, and the state: closed where it is refused.
#[derive(Clone, Copy)]
pub struct Started {
    pub outcome: Result<(), Refusal>,
    pub next: Opener,
}

// A step's answer, and the next state.
#[derive(Clone, Copy)]
pub struct Stepped {
    pub answer: Result<usize, Refusal>,
    pub next: Opener,
}
