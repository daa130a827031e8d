// The ciphers, in place: AES-256 (FIPS 197) in CBC mode (SP 800-38A), ChaCha20 (RFC 8439), and
// Salsa20 (its specification). The contracts cite the publications' definitions. Nothing is refused.
ghost use Rattle.std.specs.Prelude.{◌≡◌};
ghost use Rattle.stream.specs.Stream as stream;
ghost use Rattle.chacha20.specs.Rfc8439 as rfc8439;
ghost use Rattle.salsa20.specs.Salsa20 as salsa20;
ghost use Rattle.fips197.specs.Fips197 as fips197;
ghost use Rattle.cbc.specs.Sp80038a as sp80038a;
ghost use Rattle.slices.specs.Over.{over};

use aes::RoundKeys;
use chacha20::ChaCha20;
use salsa20::Salsa20;

// CBC encryption (SP 800-38A) under AES-256 in place: the whole blocks of `out`. Bytes behind the last one stay.
#[unsafe(no_mangle)]
pub extern "C" fn kdbx4_aes256_cbc_encrypt(key: &[u8; 32], iv: &[u8; 16], out: &mut [u8])
    ensures { out.new ≡ over (sp80038a.encrypt (λ s. fips197.cipher s (fips197.key_expansion key.now)) iv.now out.old) out.old }
{
    let k = *key;
    let v = *iv;
    let keys = RoundKeys::expand(k);
    aes_cbc::encrypt_cbc(keys, v, out);
}

// CBC decryption (SP 800-38A) under AES-256 in place: the whole blocks of `out`. Bytes behind the last one stay.
#[unsafe(no_mangle)]
pub extern "C" fn kdbx4_aes256_cbc_decrypt(key: &[u8; 32], iv: &[u8; 16], out: &mut [u8])
    ensures { out.new ≡ over (sp80038a.decrypt (λ s. fips197.inv_cipher s (fips197.key_expansion key.now)) iv.now out.old) out.old }
{
    let k = *key;
    let v = *iv;
    let keys = RoundKeys::expand(k);
    aes_cbc::decrypt_cbc(keys, v, out);
}

// ChaCha20 (RFC 8439) in place: the stream of a key and a nonce, from byte `at` of it on, applied to `out`.
#[unsafe(no_mangle)]
pub extern "C" fn kdbx4_chacha20(key: &[u8; 32], nonce: &[u8; 12], at: u64, out: &mut [u8])
    ensures { out.new ≡ stream.apply (rfc8439.blocks key.now nonce.now) at out.old }
{
    let k = *key;
    let n = *nonce;
    ChaCha20::apply(k, n, at, out);
}

// Salsa20 in place: the stream of a key and a nonce, from byte `at` of it on, applied to `out`.
#[unsafe(no_mangle)]
pub extern "C" fn kdbx4_salsa20(key: &[u8; 32], nonce: &[u8; 8], at: u64, out: &mut [u8])
    ensures { out.new ≡ stream.apply (salsa20.blocks key.now nonce.now) at out.old }
{
    let k = *key;
    let n = *nonce;
    Salsa20::apply(k, n, at, out);
}
