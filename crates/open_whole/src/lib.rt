// The whole opener behind the header's tag (document 01, "File after the header").
//
// `open_blocks` makes the checks of all blocks in one pass over the file (module survey: 1, 2, 5, 14 and 15), then 16
// and 17, and writes nothing before all of them are settled. Then the ciphertext is copied out of the blocks by their
// sizes (module text) and decrypted where it stands. The contract cites opening's specs/Whole.
//
//   AES-256     the last piece is decrypted first, by itself: its padding says how long the payload is
//   ChaCha20    the payload is as long as the ciphertext
#![tactic(auto)]

ghost use Rattle.std.specs.Prelude.{◌≡◌, ◌++◌, ◌+◌, ◌-◌, ◌%◌, ◌≤◌, length, take, drop};
ghost use Rattle.slices.specs.Over.{over};
ghost use Rattle.cbc.specs.Sp80038a.{previous};
ghost use Rattle.ciphers.specs.declared.Cipher.TheVariants as ciphers;
ghost use Rattle.opening.specs.Decryption.{aes_from, chacha_from};
ghost use Rattle.opening.specs.Whole as whole;
ghost use Rattle.open_whole.specs.Ciphertext.{text, payload_in};

use chacha20::ChaCha20;
use ciphers::Cipher;
use opening::Keys;
use refusals::Refusal;

mod survey;
mod text;

// The ciphertext piece before the last one of `c` bytes: the nonce where there is one piece alone.
fn piece_before(k: Keys, f: &[u8], p: usize, c: usize) -> [u8; 16]
    requires c_value { c ≡ length (text f.now p) }
    requires c_value_2 { (c % 16 ≡ 0) × (16 ≤ c) }
    ensures { result ≡ previous k.nonce (take (c - 16) (text f.now p)) }
{
    let mut piece = k.nonce;
    if c < 32 {
        return piece;
    }
    text::copy_text(f, p, c - 32, &mut piece);
    piece
}

// The last piece of `c` bytes of ciphertext, decrypted.
fn last_piece(k: Keys, f: &[u8], p: usize, c: usize) -> [u8; 16]
    requires c_value { c ≡ length (text f.now p) }
    requires c_value_2 { (c % 16 ≡ 0) × (16 ≤ c) }
    ensures { result ≡ aes_from k (previous k.nonce (take (c - 16) (text f.now p))) (drop (c - 16) (text f.now p)) }
{
    let mut piece = [0u8; 16];
    text::copy_text(f, p, c - 16, &mut piece);
    let before = piece_before(k, f, p, c);
    let keys = k.round_keys;
    aes_cbc::decrypt_cbc(keys, before, &mut piece);
    piece
}

// Fills `out` with the decryption of as many bytes of AES ciphertext.
fn fill_aes(k: Keys, f: &[u8], p: usize, out: &mut [u8])
    requires { (length out.old ≤ length (text f.now p)) × (length out.old % 16 ≡ 0) }
    ensures { out.new ≡ aes_from k k.nonce (take (length out.old) (text f.now p)) }
{
    text::copy_text(f, p, 0, out);
    let keys = k.round_keys;
    let nonce = k.nonce;
    aes_cbc::decrypt_cbc(keys, nonce, out);
}

// Writes the decryption of the first `n` bytes of ciphertext and, behind it, the first `m` bytes of the last piece.
fn write_aes(k: Keys, f: &[u8], p: usize, n: usize, last: [u8; 16], m: usize, out: &mut [u8])
    requires n_in_bounds { (n ≤ length (text f.now p)) × (n % 16 ≡ 0) }
    requires m_bound { (m ≤ 16) × (n + m ≤ length out.old) }
    ensures { out.new ≡ over (aes_from k k.nonce (take n (text f.now p)) ++ take m last) out.old }
{
    fill_aes(k, f, p, &mut out[..n]);
    slices::copy(&mut out[n..], &last[..m]);
}

// The payload of `c` bytes of AES ciphertext.
fn open_aes(k: Keys, f: &[u8], p: usize, c: usize, out: &mut [u8]) -> Result<usize, Refusal>
    requires { c ≡ length (text f.now p) }
    ensures value { result ≡ whole.written_of (payload_in ciphers.Aes256 k f.now p (length out.old)) }
    ensures out_after { out.new ≡ over (whole.shown_of (payload_in ciphers.Aes256 k f.now p (length out.old))) out.old }
{
    if c == 0 {
        return Err(Refusal::WrongPadding);
    }
    if c % 16 != 0 {
        return Err(Refusal::WrongPadding);
    }
    let last = last_piece(k, f, p, c);
    match pkcs7::check(last) {
        None => return Err(Refusal::WrongPadding),
        Some(padding) => {
            let m = 16 - (padding as usize);
            if out.len() < c - 16 + m {
                return Err(Refusal::NoRoom);
            }
            write_aes(k, f, p, c - 16, last, m, out);
            return Ok(c - 16 + m);
        }
    }
}

// Fills `out` with the decryption of as many bytes of ChaCha20 ciphertext.
fn fill_chacha20(k: Keys, f: &[u8], p: usize, out: &mut [u8])
    requires { length out.old ≤ length (text f.now p) }
    ensures { out.new ≡ chacha_from k 0 (take (length out.old) (text f.now p)) }
{
    text::copy_text(f, p, 0, out);
    let key = k.key;
    let nonce = k.nonce;
    ChaCha20::apply(key, ciphers::short_nonce(nonce), 0, out);
}

// The payload of `c` bytes of ChaCha20 ciphertext.
fn open_chacha20(k: Keys, f: &[u8], p: usize, c: usize, out: &mut [u8]) -> Result<usize, Refusal>
    requires { c ≡ length (text f.now p) }
    ensures value { result ≡ whole.written_of (payload_in ciphers.ChaCha20 k f.now p (length out.old)) }
    ensures out_after { out.new ≡ over (whole.shown_of (payload_in ciphers.ChaCha20 k f.now p (length out.old))) out.old }
{
    if out.len() < c {
        return Err(Refusal::NoRoom);
    }
    fill_chacha20(k, f, p, &mut out[..c]);
    Ok(c)
}

// Opens the blocks of a file, the first of which stands at `p`: the payload goes to the front of `out`.
pub fn open_blocks(k: Keys, f: &[u8], p: usize, out: &mut [u8]) -> Result<usize, Refusal>
    ensures value { result ≡ whole.written_of (whole.whole_in k f.now p (length out.old)) }
    ensures out_after { out.new ≡ over (whole.shown_of (whole.whole_in k f.now p (length out.old))) out.old }
{
    let base = k.base;
    match survey::survey(f, base, p) {
        Err(r) => return Err(r),
        Ok(count) => {
            let cipher = k.cipher;
            match cipher {
                Cipher::Aes256 => return open_aes(k, f, p, count, out),
                Cipher::ChaCha20 => return open_chacha20(k, f, p, count, out),
            }
        }
    }
}
