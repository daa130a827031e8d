// The keys of a vault (document 01, "Keys"; the key file: document 02, Item 2): the composite key from what the user
// has, and the cipher key and tag keys from the transformed key T and the header's master seed.
//
// The contracts cite specs/Kdbx4Keys. A credential is a slice where it is given, and `None` where it is absent: an empty
// password is a part of the key, an absent one is not. Refusals, in order: 1 for a password or key file over its limit;
// 18 for no credential, a pre-hash that is not 32 bytes, or one that is given with another credential.
#![tactic(auto)]

ghost use Rattle.std.specs.Prelude.{◌≡◌, false, not, ◌++◌, ◌≤◌, length};
ghost use Rattle.refusals.specs.Limits.{message_limit};
ghost use Rattle.fips180.specs.Fips180 as fips180;
ghost use Rattle.keys.specs.Kdbx4Keys as kdbx4;
ghost use Rattle.keys.specs.State as state;

use refusals::Refusal;
use refusals::limits::{KEY_FILE_LIMIT, PASSWORD_LIMIT};
use sha256::Sha256;
use sha512::Sha512;

// SHA-256 of a message within the limit.
fn hash_of(s: &[u8]) -> [u8; 32]
    requires { length s.now ≤ message_limit }
    ensures { result ≡ fips180.hash fips180.sha256 s.now }
{
    sha256::hash(s).digest
}

// SHA-256 of two parts joined.
fn hash_two(a: [u8; 32], b: [u8; 32]) -> [u8; 32]
    ensures { result ≡ fips180.hash fips180.sha256 (a ++ b) }
{
    Sha256::start().feed(&a).next.feed(&b).next.finish()
}

// Whether a key file is 64 hexadecimal digits.
fn is_hex_key(s: &[u8]) -> bool
    ensures { result ≡ kdbx4.is_hex_key s.now }
{
    if s.len() != 64 {
        return false;
    }
    hexadecimal::all_digits(s)
}

// A key file's part: 32 bytes as they stand, 64 digits decoded, all else hashed.
fn key_file_part(s: &[u8]) -> [u8; 32]
    requires { length s.now ≤ message_limit }
    ensures { result ≡ kdbx4.key_file_part s.now }
{
    if s.len() == 32 {
        let mut part = [0u8; 32];
        slices::copy(&mut part, s);
        return part;
    }
    if is_hex_key(s) {
        let mut part = [0u8; 32];
        hexadecimal::decode(&mut part, s);
        return part;
    }
    hash_of(s)
}

// Whether a credential, where it is given, has at most so many bytes.
pub fn is_within(credential: Option<&[u8]>, limit: usize) -> bool
    ensures { result ≡ not (kdbx4.over limit (state.credential credential.entry)) }
{
    match credential {
        Some(s) => s.len() <= limit,
        None => true,
    }
}

// The composite key of a pre-hash alone: the pre-hash itself, never hashed again.
fn from_pre_hash(s: &[u8]) -> Result<[u8; 32], Refusal>
    ensures { result ≡ kdbx4.composite_of kdbx4.absent kdbx4.absent (kdbx4.given s.now) }
{
    if s.len() != 32 {
        return Err(Refusal::WrongCredential);
    }
    let mut key = [0u8; 32];
    key.copy_from_slice(s);
    Ok(key)
}

// The composite key of credentials that are within their limits.
fn from_parts(
    password: Option<&[u8]>,
    key_file: Option<&[u8]>,
    pre_hash: Option<&[u8]>,
) -> Result<[u8; 32], Refusal>
    requires password_value { kdbx4.over message_limit (state.credential password) ≡ false }
    requires key_file_value { kdbx4.over message_limit (state.credential key_file) ≡ false }
    ensures { result ≡ kdbx4.composite_of (state.credential password.entry) (state.credential key_file.entry) (state.credential pre_hash.entry) }
{
    match (password, key_file, pre_hash) {
        (Some(p), Some(f), None) => Ok(hash_two(hash_of(p), key_file_part(f))),
        (Some(p), None, None) => Ok(hash_of(&hash_of(p))),
        (None, Some(f), None) => Ok(hash_of(&key_file_part(f))),
        (None, None, Some(s)) => from_pre_hash(s),
        _ => Err(Refusal::WrongCredential),
    }
}

// The composite key of what is given.
pub fn composite(
    password: Option<&[u8]>,
    key_file: Option<&[u8]>,
    pre_hash: Option<&[u8]>,
) -> Result<[u8; 32], Refusal>
    ensures { result ≡ kdbx4.composite (state.credential password.entry) (state.credential key_file.entry) (state.credential pre_hash.entry) }
{
    if !is_within(password, PASSWORD_LIMIT) {
        return Err(Refusal::TooLong);
    }
    if !is_within(key_file, KEY_FILE_LIMIT) {
        return Err(Refusal::TooLong);
    }
    from_parts(password, key_file, pre_hash)
}

// The key of the payload's cipher.
pub fn cipher_key(seed: [u8; 32], t: [u8; 32]) -> [u8; 32]
    ensures { result ≡ kdbx4.cipher_key seed t }
{
    hash_two(seed, t)
}

// What the tag keys are made from.
pub fn tag_base(seed: [u8; 32], t: [u8; 32]) -> [u8; 64]
    ensures { result ≡ kdbx4.tag_base seed t }
{
    let one = [1u8; 1];
    Sha512::start()
        .feed(&seed)
        .next
        .feed(&t)
        .next
        .feed(&one)
        .next
        .finish()
}

// The tag key of a block's number; the header's tag has the number 2^64 - 1.
pub fn tag_key(i: u64, base: [u8; 64]) -> [u8; 64]
    ensures { result ≡ kdbx4.tag_key i base }
{
    let n = words::le::bytes64(i);
    Sha512::start().feed(&n).next.feed(&base).next.finish()
}
