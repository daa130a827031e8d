// AES-256 (FIPS 197): the key schedule, the cipher and its inverse on one block.
//
// The contracts cite specs of crate fips197: key_expansion, cipher, inv_cipher. Every operation answers every input: a
// key is 32 bytes, a block 16, by their types. Round keys are a value; any 60 words are some key schedule, and the
// promises hold of them. The operations of this file build the tables that they need (crate aes_tables) at each call:
// some 2,000 instructions, and 8,000 for decryption. Those of the modules below take lent tables, for callers with many
// blocks, and promise what they make of any tables (specs/Tabled); by the right ones that is FIPS 197's (proofs,
// Laws.Tabled). Table look-ups are not constant-time.
#![tactic(auto)]

ghost use Rattle.std.specs.Prelude.{◌≡◌};
ghost use Rattle.fips197.specs.Fips197 as fips197;
ghost use Rattle.aes.specs.Repeated.{repeated};

pub mod block;
pub mod cipher;
pub mod inv_cipher;
pub mod schedule;

// The cipher of a vault's header.
#[derive(Clone, Copy)]
pub struct Aes256;

impl Aes256 {
    pub const ID: [u8; 16] = [
        0x31, 0xc1, 0xf2, 0xe6, 0xbf, 0x71, 0x43, 0x50, 0xbe, 0x58, 0x05, 0x21, 0x6a, 0xfc, 0x5a,
        0xff,
    ];

    pub const NONCE_LEN: usize = 16;
}

// A key schedule.
#[derive(Clone, Copy)]
pub struct RoundKeys {
    pub words: [u32; 60],
}

impl RoundKeys {
    // The key schedule of a key.
    pub fn expand(key: [u8; 32]) -> RoundKeys
        ensures { result.words ≡ fips197.key_expansion key }
    {
        let te = aes_tables::te();
        let words = schedule::expand(&te, key);
        RoundKeys { words }
    }
}

// The block, encrypted n times under the same key.
pub fn encrypt_repeated(keys: RoundKeys, block: [u8; 16], n: u32) -> [u8; 16]
    ensures { result ≡ repeated (λ s. fips197.cipher s keys.words) n block }
{
    let te = aes_tables::te();
    let words = keys.words;
    let x = cipher::encrypt_repeated(&te, &words, block::load(block), n);
    block::store(x)
}

// The block, encrypted.
pub fn encrypt(keys: RoundKeys, block: [u8; 16]) -> [u8; 16]
    ensures { result ≡ fips197.cipher block keys.words }
{
    let te = aes_tables::te();
    let words = keys.words;
    let x = cipher::encrypt(&te, &words, block::load(block));
    block::store(x)
}

// The block, decrypted.
pub fn decrypt(keys: RoundKeys, block: [u8; 16]) -> [u8; 16]
    ensures { result ≡ fips197.inv_cipher block keys.words }
{
    let te = aes_tables::te();
    let inverse = aes_tables::inverse();
    let td = aes_tables::td(&inverse);
    let words = keys.words;
    let dual = schedule::dual(&te, &td, words);
    let x = inv_cipher::decrypt(&inverse, &td, &dual, block::load(block));
    block::store(x)
}
