// Argon2's variable-length hash function H' (RFC 9106, 3.3), as long as the slice that it is to fill.
//
// The contracts cite specs/LongHash. Refusal: a message that with the four bytes before it is over its limit; the lent
// slice is then as it was.
#![tactic(auto)]

ghost use Rattle.std.specs.Prelude.{◌≡◌, ◌++◌, ◌+◌, ◌≤◌, ◌<◌, length};
ghost use Rattle.words.specs.Endian.{le_bytes};
ghost use Rattle.refusals.specs.Limits.{message_limit};
ghost use Rattle.blake2b.specs.Rfc7693 as rfc7693;
ghost use Rattle.argon2_hash.specs.LongHash as h;

use blake2b::Blake2b;
use refusals::Refusal;

// H^(nn) of a length and a message: the digest is the first nn bytes.
fn first_value(nn: u8, size: usize, message: &[u8]) -> [u8; 64]
    requires { 4 + length message.now ≤ message_limit }
    ensures { result ≡ rfc7693.full nn (le_bytes 4 size ++ message.now) }
{
    let t = words::le::bytes32((size % 0x1_0000_0000) as u32);
    Blake2b::start(nn).feed(&t).next.feed(message).next.finish()
}

// H^(nn) of a value: the digest is the first nn bytes.
fn next_value(nn: u8, v: [u8; 64]) -> [u8; 64]
    ensures { result ≡ rfc7693.full nn v }
{
    Blake2b::start(nn).feed(&v).next.finish()
}

// H' of up to 64 bytes: one hash.
fn fill_short(message: &[u8], out: &mut [u8])
    requires message_bound { 4 + length message.now ≤ message_limit }
    requires out_len_bound { length out.old ≤ 64 }
    ensures { out.new ≡ h.long_hash (length out.old) message.now }
{
    let n = out.len();
    let v = first_value(n as u8, n, message);
    slices::put(out, 0, &v);
}

// H' of more than 64 bytes: the first halves of the values, one after the other, and the last value.
fn fill_longer(message: &[u8], out: &mut [u8])
    requires message_bound { 4 + length message.now ≤ message_limit }
    requires in_bounds { 64 < length out.old }
    ensures { out.new ≡ h.long_hash (length out.old) message.now }
{
    let n = out.len();
    let r = (n - 1) / 32 - 1;
    let mut v = first_value(64, n, message);
    for i in 0..r - 1 {
        slices::put(out, 32 * i, &v[0..32]);
        let w = next_value(64, v);
        v = w;
    }
    slices::put(out, 32 * (r - 1), &v[0..32]);
    let last = next_value((n - 32 * r) as u8, v);
    slices::put(out, 32 * r, &last);
}

// 3.3: fills `out` with H' of its length of `message`.
pub fn fill(message: &[u8], out: &mut [u8]) -> Result<(), Refusal>
    ensures value { result ≡ h.fill_outcome message.now }
    ensures out_after { out.new ≡ h.filled message.now out.old }
{
    if refusals::limits::MESSAGE_LIMIT - 4 < message.len() {
        return Err(Refusal::TooLong);
    }
    if out.len() <= 64 {
        fill_short(message, out);
        return Ok(());
    }
    fill_longer(message, out);
    Ok(())
}
