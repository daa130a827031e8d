// The keys of a vault (document 01, "Keys"; document 02, Item 6): the composite key, AES-KDF, Argon2, and what T and the
// master seed give. The contracts cite crate keys' specs/Kdbx4Keys, crate aes_kdf's specs/AesKdf, crate argon2's
// specs/Run and crate states' specs/AesKdfState. Refusals: of the composite key 1 and 18, of the rounds 11, of T before
// the end 19, of Argon2 9, 22 and 17.
ghost use Rattle.std.specs.Prelude.{◌≡◌, ◌++◌, length};
ghost use Rattle.refusals.specs.Numbers as numbers;
ghost use Rattle.argon2.specs.Run as argon2;
ghost use Rattle.aes_kdf.specs.AesKdf as kdf;
ghost use Rattle.aes_kdf.specs.State as transformation;
ghost use Rattle.states.specs.AesKdfState as kdf_state;
ghost use Rattle.keys.specs.Kdbx4Keys as kdbx4;
ghost use Rattle.keys.specs.State as credentials;
ghost use Rattle.calls.specs.Calls as calls;
ghost use Rattle.exports.specs.Lent as lent;

use aes_kdf::Transformation;
use argon2::Kind;
use refusals::Refusal;
use states::aes_kdf_state;

// A credential: given where its flag is not 0.
fn given(s: &[u8], flag: u8) -> Option<&[u8]>
    ensures { credentials.credential result ≡ lent.credential flag s.now }
{
    if flag == 0 { None } else { Some(s) }
}

// The composite key of a password, a key file or both, or a pre-hash. A credential is given where its flag is not 0.
#[unsafe(no_mangle)]
pub extern "C" fn kdbx4_composite(
    password: &[u8],
    has_password: u8,
    key_file: &[u8],
    has_key_file: u8,
    pre_hash: &[u8],
    has_pre_hash: u8,
    out: &mut [u8; 32],
) -> u8
    ensures value { result ≡ numbers.number_of (kdbx4.composite (lent.credential has_password password.now) (lent.credential has_key_file key_file.now) (lent.credential has_pre_hash pre_hash.now)) }
    ensures out_after { out.new ≡ lent.composite_or (kdbx4.composite (lent.credential has_password password.now) (lent.credential has_key_file key_file.now) (lent.credential has_pre_hash pre_hash.now)) out.old }
{
    match keys::composite(
        given(password, has_password),
        given(key_file, has_key_file),
        given(pre_hash, has_pre_hash),
    ) {
        Ok(key) => {
            *out = key;
            0
        }
        Err(r) => r.number(),
    }
}

// AES-KDF in one call: the transformed key T of a composite key, a seed and a number of rounds.
#[unsafe(no_mangle)]
pub extern "C" fn kdbx4_aes_kdf(
    composite: &[u8; 32],
    seed: &[u8; 32],
    rounds: u64,
    out: &mut [u8; 32],
) -> u8
    ensures value { result ≡ numbers.number_of (kdf.start composite.now seed.now rounds).outcome }
    ensures out_after { out.new ≡ lent.aes_kdf composite.now seed.now rounds out.old }
{
    let c = *composite;
    let s = *seed;
    let started = Transformation::start(c, s, rounds);
    let outcome = started.outcome;
    let next = started.next;
    if let Ok(()) = outcome {
        let key = next.advance(rounds).finish().key;
        *out = key;
        return 0;
    }
    refusals::number(outcome)
}

// Starts AES-KDF in parts. Rounds over the limit give a state that only 19 comes of.
#[unsafe(no_mangle)]
pub extern "C" fn kdbx4_aes_kdf_start(
    composite: &[u8; 32],
    seed: &[u8; 32],
    rounds: u64,
    state: &mut [u8; 281],
) -> u8
    ensures value { result ≡ numbers.number_of (kdf.start composite.now seed.now rounds).outcome }
    ensures state_after { state.new ≡ kdf_state.packed (transformation.started composite.now seed.now rounds).next }
{
    let c = *composite;
    let s = *seed;
    let started = Transformation::start(c, s, rounds);
    let outcome = started.outcome;
    let next = started.next;
    *state = aes_kdf_state::pack(next);
    refusals::number(outcome)
}

// The two halves of a key, joined.
fn join(left: [u8; 16], right: [u8; 16]) -> [u8; 32]
    ensures { result ≡ left ++ right }
{
    let mut both = [0u8; 32];
    slices::put(&mut both, 0, &left);
    slices::put(&mut both, 16, &right);
    both
}

// At most n rounds more: how many were done in all, and the halves after so many.
#[unsafe(no_mangle)]
pub extern "C" fn kdbx4_aes_kdf_advance(
    state: &mut [u8; 281],
    n: u64,
    done: &mut u32,
    halves: &mut [u8; 32],
)
    ensures state_after { state.new ≡ kdf_state.packed (transformation.advanced n (kdf_state.unpacked state.old)) }
    ensures done_after { done.new ≡ (transformation.advanced n (kdf_state.unpacked state.old)).done }
    ensures halves_after { halves.new ≡ (transformation.advanced n (kdf_state.unpacked state.old)).left ++ (transformation.advanced n (kdf_state.unpacked state.old)).right }
{
    let bytes = *state;
    let next = aes_kdf_state::unpack(bytes).advance(n);
    let left = next.left;
    let right = next.right;
    *done = next.done;
    *halves = join(left, right);
    *state = aes_kdf_state::pack(next);
}

// The transformed key T, once all rounds are done.
#[unsafe(no_mangle)]
pub extern "C" fn kdbx4_aes_kdf_finish(state: &[u8; 281], out: &mut [u8; 32]) -> u8
    ensures value { result ≡ numbers.number_of (transformation.finished (kdf_state.unpacked state.now)).outcome }
    ensures out_after { out.new ≡ lent.transformed_or (transformation.finished (kdf_state.unpacked state.now)) out.old }
{
    let bytes = *state;
    let finished = aes_kdf_state::unpack(bytes).finish();
    let outcome = finished.outcome;
    let key = finished.key;
    if let Ok(()) = outcome {
        *out = key;
        return 0;
    }
    refusals::number(outcome)
}

// T by a kind of Argon2.
fn run_argon2(
    kind: Kind,
    composite: &[u8; 32],
    salt: &[u8],
    passes: u64,
    memory: u64,
    lanes: u32,
    words: &mut [u64],
    out: &mut [u8; 32],
) -> u8
    ensures value { result ≡ numbers.number_of (argon2.outcome (argon2.vault_inputs kind composite.now salt.now passes memory lanes) memory (length words.old)) }
    ensures words_after { words.new ≡ argon2.left (argon2.outcome (argon2.vault_inputs kind composite.now salt.now passes memory lanes) memory (length words.old)) (argon2.vault_inputs kind composite.now salt.now passes memory lanes) words.old }
    ensures out_after { out.new ≡ calls.result_or (argon2.outcome (argon2.vault_inputs kind composite.now salt.now passes memory lanes) memory (length words.old)) (argon2.transformed_key kind composite.now salt.now passes memory lanes) out.old }
{
    let c = *composite;
    let transformed = argon2::transform(kind, c, salt, passes, memory, lanes, words);
    let outcome = transformed.outcome;
    let key = transformed.key;
    if let Ok(()) = outcome {
        *out = key;
        return 0;
    }
    refusals::number(outcome)
}

// Argon2 in one call: the transformed key T of a composite key, a salt and its figures, in lent words. 1 is Argon2d, 2
// Argon2id.
#[unsafe(no_mangle)]
pub extern "C" fn kdbx4_argon2(
    kdf: u32,
    composite: &[u8; 32],
    salt: &[u8],
    passes: u64,
    memory: u64,
    lanes: u32,
    words: &mut [u64],
    out: &mut [u8; 32],
) -> u8
    ensures value { result ≡ numbers.number_of (lent.argon2_outcome kdf (lent.argon2_inputs kdf composite.now salt.now passes memory lanes) memory (length words.old)) }
    ensures words_after { words.new ≡ argon2.left (lent.argon2_outcome kdf (lent.argon2_inputs kdf composite.now salt.now passes memory lanes) memory (length words.old)) (lent.argon2_inputs kdf composite.now salt.now passes memory lanes) words.old }
    ensures out_after { out.new ≡ calls.result_or (lent.argon2_outcome kdf (lent.argon2_inputs kdf composite.now salt.now passes memory lanes) memory (length words.old)) (argon2.transformed_key (lent.argon2_kind kdf) composite.now salt.now passes memory lanes) out.old }
{
    if kdf == 1 {
        return run_argon2(
            Kind::Argon2d,
            composite,
            salt,
            passes,
            memory,
            lanes,
            words,
            out,
        );
    }
    if kdf == 2 {
        return run_argon2(
            Kind::Argon2id,
            composite,
            salt,
            passes,
            memory,
            lanes,
            words,
            out,
        );
    }
    Refusal::Unlisted(0).number()
}

// The key of the payload's cipher, of a master seed and T.
#[unsafe(no_mangle)]
pub extern "C" fn kdbx4_cipher_key(seed: &[u8; 32], t: &[u8; 32], out: &mut [u8; 32])
    ensures { out.new ≡ kdbx4.cipher_key seed.now t.now }
{
    let s = *seed;
    let key = *t;
    *out = keys::cipher_key(s, key);
}

// What the tag keys are made from, of a master seed and T.
#[unsafe(no_mangle)]
pub extern "C" fn kdbx4_tag_base(seed: &[u8; 32], t: &[u8; 32], out: &mut [u8; 64])
    ensures { out.new ≡ kdbx4.tag_base seed.now t.now }
{
    let s = *seed;
    let key = *t;
    *out = keys::tag_base(s, key);
}

// The tag key of a block's number; the header's tag has the number 2^64 - 1.
#[unsafe(no_mangle)]
pub extern "C" fn kdbx4_tag_key(i: u64, base: &[u8; 64], out: &mut [u8; 64])
    ensures { out.new ≡ kdbx4.tag_key i base.now }
{
    let b = *base;
    *out = keys::tag_key(i, b);
}
