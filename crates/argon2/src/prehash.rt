// H_0 (RFC 9106, 3.2, step 1): the hash of the figures and of the inputs, each behind its length.
ghost use Rattle.std.specs.Prelude.{◌≡◌, [], ◌∷◌, ◌++◌, ◌+◌, ◌≤◌, leb, length};
ghost use Rattle.words.specs.Endian.{le_bytes};
ghost use Rattle.refusals.specs.Limits.{message_limit};
ghost use Rattle.blake2b.specs.State as state;
ghost use Rattle.argon2.specs.Rfc9106 as rfc9106;

use blake2b::Blake2b;
use words::le::bytes32;

// Whether inputs of such lengths, with the forty bytes of figures and lengths, are a message that may be hashed.
pub(crate) fn fits(password: usize, salt: usize, secret: usize, associated: usize) -> bool
    ensures { result ≡ leb (40 + (password + salt + secret + associated)) message_limit }
{
    let most = refusals::limits::MESSAGE_LIMIT - 40;
    if most < password {
        return false;
    }
    if most - password < salt {
        return false;
    }
    if most - password - salt < secret {
        return false;
    }
    associated <= most - password - salt - secret
}

// LE32 of a number, fed.
fn feed_number(b: Blake2b, n: u32) -> Blake2b
    ensures { result ≡ (state.fed b (le_bytes 4 n)).next }
{
    b.feed(&bytes32(n)).next
}

// LE32 of a slice's length and its bytes, fed.
fn feed_counted(b: Blake2b, s: &[u8]) -> Blake2b
    ensures { result ≡ (state.fed (state.fed b (le_bytes 4 (length s.now))).next s.now).next }
{
    feed_number(b, (s.len() % 0x1_0000_0000) as u32)
        .feed(s)
        .next
}

// The figures of H_0, fed: p, T, m, t, v, y.
fn feed_figures(kind: u32, lanes: u32, tag_length: usize, m: u32, passes: u32) -> Blake2b
    ensures { result ≡ state.feeds (state.started 64) (le_bytes 4 lanes ∷ le_bytes 4 tag_length ∷ le_bytes 4 m ∷ le_bytes 4 passes ∷ le_bytes 4 0x13 ∷ le_bytes 4 kind ∷ []) }
{
    let b1 = feed_number(Blake2b::start(64), lanes);
    let b2 = feed_number(b1, (tag_length % 0x1_0000_0000) as u32);
    let b3 = feed_number(b2, m);
    let b4 = feed_number(b3, passes);
    let b5 = feed_number(b4, 0x13);
    feed_number(b5, kind)
}

// H_0 of the figures and of the inputs.
pub(crate) fn h0(
    kind: u32,
    lanes: u32,
    tag_length: usize,
    m: u32,
    passes: u32,
    password: &[u8],
    salt: &[u8],
    secret: &[u8],
    associated: &[u8],
) -> [u8; 64]
    requires { 40 + (length password.now + length salt.now + length secret.now + length associated.now) ≤ message_limit }
    ensures { result ≡ rfc9106.h0 (record { kind = kind; lanes = lanes; tag_length = tag_length; memory = m; passes = passes; password = password.now; salt = salt.now; secret = secret.now; associated = associated.now }) }
{
    let b0 = feed_figures(kind, lanes, tag_length, m, passes);
    let b1 = feed_counted(b0, password);
    let b2 = feed_counted(b1, salt);
    let b3 = feed_counted(b2, secret);
    feed_counted(b3, associated).finish()
}
