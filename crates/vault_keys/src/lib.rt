// The keys of a vault as its openers and its writer use them (document 01, "Keys" and "File after the header"), and the
// tag of its header. The contracts cite specs/VaultKeys.
#![tactic(auto)]

ghost use Rattle.std.specs.Prelude.{◌≡◌};
ghost use Rattle.vault_keys.specs.VaultKeys as kdbx4;

use aes::RoundKeys;
use ciphers::Cipher;
use opening::Keys;

// The keys of a cipher key, a nonce in sixteen bytes and a tag base.
pub fn keys_for(c: Cipher, key: [u8; 32], nonce: [u8; 16], base: [u8; 64]) -> Keys
    ensures { result ≡ kdbx4.keys_for c key nonce base }
{
    match c {
        Cipher::Aes256 => Keys {
            cipher: Cipher::Aes256,
            key: [0u8; 32],
            round_keys: RoundKeys::expand(key),
            nonce,
            base,
        },
        Cipher::ChaCha20 => Keys {
            cipher: Cipher::ChaCha20,
            key,
            round_keys: RoundKeys { words: [0u32; 60] },
            nonce,
            base,
        },
    }
}

// The keys of T and a master seed.
pub fn keys_with(c: Cipher, seed: [u8; 32], nonce: [u8; 16], t: [u8; 32]) -> Keys
    ensures { result ≡ kdbx4.keys_with c seed nonce t }
{
    let key = keys::cipher_key(seed, t);
    let base = keys::tag_base(seed, t);
    keys_for(c, key, nonce, base)
}

// The tag of a header's bytes: zeros where they are over a message's limit.
pub fn header_tag(base: [u8; 64], m: &[u8]) -> [u8; 32]
    ensures { result ≡ kdbx4.answered_tag base m.now }
{
    let key = keys::tag_key(0xFFFF_FFFF_FFFF_FFFF, base);
    hmac::tag(&key, m).tag
}
