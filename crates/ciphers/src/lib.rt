// The ciphers of a payload (document 01, "Header"): which one an identifier names, and how long its nonce is.
//
// The contracts cite specs/Ciphers, and specs/Answers for what an answer says. The identifiers and nonce lengths are
// constants of each cipher's type. Refusal: 9.
#![tactic(auto)]

ghost use Rattle.std.specs.Prelude.{◌≡◌, [], ◌∷◌, take};
ghost use Rattle.ciphers.specs.Ciphers as ciphers;
ghost use Rattle.ciphers.specs.Answers as answers;

use aes::Aes256;
use chacha20::ChaCha20;
use refusals::Refusal;

// A payload's cipher.
#[derive(Clone, Copy)]
pub enum Cipher {
    Aes256,
    ChaCha20,
}

// The cipher of an identifier: none where it is not listed.
pub fn identify(id: &[u8]) -> Option<Cipher>
    ensures value { result ≡ ciphers.cipher_of id.now }
    ensures result_value { answers.said result ≡ answers.said (ciphers.cipher_of id.now) }
{
    let aes = Aes256::ID;
    if slices::same(id, &aes) {
        return Some(Cipher::Aes256);
    }
    let chacha = ChaCha20::ID;
    if slices::same(id, &chacha) {
        return Some(Cipher::ChaCha20);
    }
    None
}

impl Cipher {
    // The identifier of a cipher.
    pub fn identifier(self) -> [u8; 16]
        ensures { result ≡ ciphers.identifier self }
    {
        match self {
            Cipher::Aes256 => Aes256::ID,
            Cipher::ChaCha20 => ChaCha20::ID,
        }
    }

    // How many bytes a cipher's nonce has.
    pub fn nonce_len(self) -> usize
        ensures { result ≡ ciphers.nonce_length self }
    {
        match self {
            Cipher::Aes256 => Aes256::NONCE_LEN,
            Cipher::ChaCha20 => ChaCha20::NONCE_LEN,
        }
    }

    // A cipher's number.
    pub fn number(self) -> u8
        ensures { result ≡ answers.cipher_number self }
    {
        match self {
            Cipher::Aes256 => 0,
            Cipher::ChaCha20 => 1,
        }
    }
}

// The number of what an identifier names: 0, or 9.
pub fn identified_number(cipher: Option<Cipher>) -> u8
    ensures { result ≡ (answers.said cipher).number }
{
    match cipher {
        Some(_) => 0,
        None => Refusal::Unlisted(0).number(),
    }
}

// The number of the cipher that an identifier names: 0 where there is none.
pub fn identified_value(cipher: Option<Cipher>) -> u8
    ensures { result ∷ [] ≡ (answers.said cipher).values }
{
    match cipher {
        Some(c) => c.number(),
        None => 0,
    }
}

// ChaCha20's nonce: the first twelve bytes of a nonce that is kept in sixteen.
pub fn short_nonce(nonce: [u8; 16]) -> [u8; 12]
    ensures { result ≡ take 12 nonce }
{
    let mut front = [0u8; 12];
    slices::copy(&mut front, &nonce);
    front
}
