// Hashes (FIPS 180-4) and tags (RFC 2104): of whole messages, and hashes in parts over a state that is lent as bytes.
// The contracts cite the definitions of crates sha256, sha512 and hmac, and of crates states and calls. Refusal: 1,
// with the state as it was.
ghost use Rattle.std.specs.Prelude.{◌≡◌};
ghost use Rattle.refusals.specs.Numbers as numbers;
ghost use Rattle.sha256.specs.State as sha256;
ghost use Rattle.sha512.specs.State as sha512;
ghost use Rattle.hmac.specs.State as hmac;
ghost use Rattle.states.specs.Sha256State as sha256_states;
ghost use Rattle.states.specs.Sha512State as sha512_states;
ghost use Rattle.calls.specs.Calls as calls;
ghost use Rattle.exports.specs.Lent as lent;

use sha256::Sha256;
use sha512::Sha512;
use states::{sha256_state, sha512_state};

// SHA-256 (FIPS 180-4) of `m`.
#[unsafe(no_mangle)]
pub extern "C" fn kdbx4_sha256(m: &[u8], out: &mut [u8; 32]) -> u8
    ensures value { result ≡ numbers.number_of (sha256.hashed m.now).outcome }
    ensures out_after { out.new ≡ lent.sha256 m.now out.old }
{
    let h = sha256::hash(m);
    let outcome = h.outcome;
    let digest = h.digest;
    if let Ok(()) = outcome {
        *out = digest;
        return 0;
    }
    refusals::number(outcome)
}

// SHA-512 (FIPS 180-4) of `m`.
#[unsafe(no_mangle)]
pub extern "C" fn kdbx4_sha512(m: &[u8], out: &mut [u8; 64]) -> u8
    ensures value { result ≡ numbers.number_of (sha512.hashed m.now).outcome }
    ensures out_after { out.new ≡ lent.sha512 m.now out.old }
{
    let h = sha512::hash(m);
    let outcome = h.outcome;
    let digest = h.digest;
    if let Ok(()) = outcome {
        *out = digest;
        return 0;
    }
    refusals::number(outcome)
}

// HMAC-SHA-256 (RFC 2104) of `m` under `key`.
#[unsafe(no_mangle)]
pub extern "C" fn kdbx4_hmac_sha256(key: &[u8], m: &[u8], out: &mut [u8; 32]) -> u8
    ensures value { result ≡ numbers.number_of (hmac.tagged key.now m.now).outcome }
    ensures out_after { out.new ≡ lent.hmac_sha256 key.now m.now out.old }
{
    let t = hmac::tag(key, m);
    let outcome = t.outcome;
    let tag = t.tag;
    if let Ok(()) = outcome {
        *out = tag;
        return 0;
    }
    refusals::number(outcome)
}

// Starts a SHA-256 in parts.
#[unsafe(no_mangle)]
pub extern "C" fn kdbx4_sha256_start(state: &mut [u8; 100])
    ensures { state.new ≡ sha256_states.packed sha256.started }
{
    *state = sha256_state::pack(Sha256::start());
}

// Feeds a part to a SHA-256.
#[unsafe(no_mangle)]
pub extern "C" fn kdbx4_sha256_feed(state: &mut [u8; 100], part: &[u8]) -> u8
    ensures value { result ≡ numbers.number_of (sha256.fed (sha256_states.unpacked state.old) part.now).outcome }
    ensures state_after { state.new ≡ calls.sha256_fed (sha256.fed (sha256_states.unpacked state.old) part.now) state.old }
{
    let bytes = *state;
    let fed = sha256_state::unpack(bytes).feed(part);
    let outcome = fed.outcome;
    let next = fed.next;
    if let Ok(()) = outcome {
        *state = sha256_state::pack(next);
        return 0;
    }
    refusals::number(outcome)
}

// The digest of all that was fed to a SHA-256.
#[unsafe(no_mangle)]
pub extern "C" fn kdbx4_sha256_finish(state: &[u8; 100], out: &mut [u8; 32])
    ensures { out.new ≡ sha256.finished (sha256_states.unpacked state.now) }
{
    let bytes = *state;
    *out = sha256_state::unpack(bytes).finish();
}

// Starts a SHA-512 in parts.
#[unsafe(no_mangle)]
pub extern "C" fn kdbx4_sha512_start(state: &mut [u8; 196])
    ensures { state.new ≡ sha512_states.packed sha512.started }
{
    *state = sha512_state::pack(Sha512::start());
}

// Feeds a part to a SHA-512.
#[unsafe(no_mangle)]
pub extern "C" fn kdbx4_sha512_feed(state: &mut [u8; 196], part: &[u8]) -> u8
    ensures value { result ≡ numbers.number_of (sha512.fed (sha512_states.unpacked state.old) part.now).outcome }
    ensures state_after { state.new ≡ calls.sha512_fed (sha512.fed (sha512_states.unpacked state.old) part.now) state.old }
{
    let bytes = *state;
    let fed = sha512_state::unpack(bytes).feed(part);
    let outcome = fed.outcome;
    let next = fed.next;
    if let Ok(()) = outcome {
        *state = sha512_state::pack(next);
        return 0;
    }
    refusals::number(outcome)
}

// The digest of all that was fed to a SHA-512.
#[unsafe(no_mangle)]
pub extern "C" fn kdbx4_sha512_finish(state: &[u8; 196], out: &mut [u8; 64])
    ensures { out.new ≡ sha512.finished (sha512_states.unpacked state.now) }
{
    let bytes = *state;
    *out = sha512_state::unpack(bytes).finish();
}
