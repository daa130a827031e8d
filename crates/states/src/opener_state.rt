// An opening under way as 410 bytes: 58 of its progress, and 352 of its keys.
//
// The contracts cite specs/OpenerState. The first byte is the phase's mark, the second the cipher. An opening is read
// as open where its mark is 1 and its cipher listed, and as ended where its mark is 2; any other is closed, so that a
// step of it is refused.
ghost use Rattle.std.specs.Prelude.{◌≡◌, ◌≤◌, length};
ghost use Rattle.slices.specs.Over.{put_at};
ghost use Rattle.states.specs.OpenerState as state;

use crate::arrays::{array, put_words32, read_words32};
use aes::RoundKeys;
use ciphers::Cipher;
use opening::{Keys, Opener, Phase};

// The mark of a phase.
fn mark_of(p: Phase) -> u8
    ensures { result ≡ state.mark_of p }
{
    match p {
        Phase::Open => 1,
        Phase::Ended => 2,
        Phase::Closed => 3,
    }
}

// The byte of a cipher.
fn byte_of(c: Cipher) -> u8
    ensures { result ≡ state.byte_of c }
{
    match c {
        Cipher::Aes256 => 0,
        Cipher::ChaCha20 => 1,
    }
}

// The phase of a mark and a cipher's byte.
fn phase_of(m: u8, c: u8) -> Phase
    ensures { result ≡ state.phase_of m c }
{
    match (m, c) {
        (1, 0..=1) => Phase::Open,
        (2, _) => Phase::Ended,
        _ => Phase::Closed,
    }
}

// The cipher of a byte.
fn cipher_of(c: u8) -> Cipher
    ensures { result ≡ state.cipher_of c }
{
    match c {
        1 => Cipher::ChaCha20,
        _ => Cipher::Aes256,
    }
}

// Writes the marks and the numbers over the front: 26 bytes.
fn put_figures(out: &mut [u8], o: Opener)
    ensures { out.new ≡ put_at 0 (state.figures o) out.old }
{
    let marks = [mark_of(o.phase), byte_of(o.keys.cipher)];
    let number = words::le::bytes64(o.number);
    let at = words::le::bytes64(o.at as u64);
    let taken = words::le::bytes64(o.taken as u64);
    slices::put(out, 0, &marks);
    slices::put(out, 2, &number);
    slices::put(out, 10, &at);
    slices::put(out, 18, &taken);
}

// Writes the keys from the place 58 on: 352 bytes.
fn put_keys(out: &mut [u8], k: Keys)
    requires { 410 ≤ length out.old }
    ensures { out.new ≡ put_at 58 (state.keys k) out.old }
{
    slices::put(out, 58, &k.key);
    put_words32(out, 90, &k.round_keys.words);
    slices::put(out, 330, &k.nonce);
    slices::put(out, 346, &k.base);
}

// The bytes of a state.
pub fn pack(o: Opener) -> [u8; 410]
    ensures { result ≡ state.packed o }
{
    let mut out = [0u8; 410];
    put_figures(&mut out, o);
    slices::put(&mut out, 26, &o.prev);
    slices::put(&mut out, 42, &o.held);
    put_keys(&mut out, o.keys);
    out
}

// The keys in the bytes of a state.
fn keys_in(b: &[u8]) -> Keys
    requires { 410 ≤ length b.now }
    ensures { result ≡ state.keys_in b.now }
{
    let key = array(b, 58);
    let mut words = [0u32; 60];
    read_words32(&mut words, b, 90);
    let nonce = array(b, 330);
    let base = array(b, 346);
    Keys {
        cipher: cipher_of(b[1]),
        key,
        round_keys: RoundKeys { words },
        nonce,
        base,
    }
}

// The state of bytes.
pub fn unpack(b: [u8; 410]) -> Opener
    ensures { result ≡ state.unpacked b }
{
    let number = words::le::u64_at(&b, 2);
    let at = words::le::u64_at(&b, 10) as usize;
    let taken = words::le::u64_at(&b, 18) as usize;
    let prev = array(&b, 26);
    let held = array(&b, 42);
    let keys = keys_in(&b);
    Opener {
        phase: phase_of(b[0], b[1]),
        number,
        at,
        taken,
        prev,
        held,
        keys,
    }
}
