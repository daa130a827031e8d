// The blocks of a ciphertext, each laid down in the lent slice behind those before it, and encrypted where it stands.
ghost use Rattle.std.specs.Prelude.{◌≡◌, ◌+◌, ◌%◌, ◌^◌, ◌≤◌, ◌<◌, length, take, drop};
ghost use Rattle.slices.specs.Over.{over};
ghost use Rattle.refusals.specs.Limits.{file_limit, written_block};
ghost use Rattle.block_stream.specs.Blocks.{block_bytes};
ghost use Rattle.writer.specs.Written as kdbx4;
ghost use Rattle.writer.specs.Stretches as stretches;

use chacha20::ChaCha20;
use ciphers::Cipher;
use opening::Keys;

// How many bytes are encrypted of a payload of n bytes: for AES-256 with its padding.
pub(crate) fn text_len(c: Cipher, n: usize) -> usize
    requires { n < 2 ^ 31 }
    ensures { result ≡ stretches.text_length c n }
{
    match c {
        Cipher::Aes256 => n + pkcs7::padding_length(n),
        Cipher::ChaCha20 => n,
    }
}

// Lays the last bytes of a payload over the front of `out`, for AES-256 with their padding.
fn lay_text(c: Cipher, piece: &[u8], out: &mut [u8])
    requires { stretches.text_length c (length piece.now) ≤ length out.old }
    ensures { out.new ≡ over (stretches.text_of c piece.now) out.old }
{
    slices::copy(out, piece);
    match c {
        Cipher::Aes256 => pkcs7::pad(out, piece.len()),
        Cipher::ChaCha20 => return,
    }
}

// Encrypts a stretch of the text where it stands: `prev` is the ciphertext piece before it, `at` the position of its
// first byte. The answer is the piece for what follows.
fn encrypt(keys: Keys, prev: [u8; 16], at: u64, out: &mut [u8]) -> [u8; 16]
    ensures value { result ≡ stretches.prev_by keys.cipher keys prev out.old }
    ensures out_after { out.new ≡ over (stretches.stretch_by keys.cipher keys prev at out.old) out.old }
{
    let c = keys.cipher;
    match c {
        Cipher::Aes256 => {
            let w = keys.round_keys;
            return aes_cbc::encrypt_cbc(w, prev, out);
        }
        Cipher::ChaCha20 => {
            let key = keys.key;
            let nonce = keys.nonce;
            let first = ciphers::short_nonce(nonce);
            ChaCha20::apply(key, first, at, out);
            return prev;
        }
    }
}

// Encrypts the n bytes at 36 of `out`, and writes their block's tag and size before them.
fn close_block(
    keys: Keys,
    prev: [u8; 16],
    number: u64,
    at: u64,
    n: usize,
    out: &mut [u8],
) -> [u8; 16]
    requires n_in_bounds { 36 + n ≤ length out.old }
    requires n_le_file_limit { n ≤ file_limit }
    ensures value { result ≡ stretches.prev_by keys.cipher keys prev (take n (drop 36 out.old)) }
    ensures out_after { out.new ≡ over (block_bytes keys.base number (stretches.encrypted_over keys.cipher keys prev at (take n (drop 36 out.old)))) out.old }
{
    let base = keys.base;
    let next = encrypt(keys, prev, at, &mut out[36..36 + n]);
    block_stream::seal(out, base, number, n);
    next
}

// Writes a block of whole pieces of the payload.
fn put_block(
    keys: Keys,
    prev: [u8; 16],
    number: u64,
    at: u64,
    piece: &[u8],
    out: &mut [u8],
) -> [u8; 16]
    requires piece_in_bounds { 36 + length piece.now ≤ length out.old }
    requires piece_len_bound { length piece.now ≤ file_limit }
    requires piece_len { length piece.now % 16 ≡ 0 }
    ensures value { result ≡ stretches.prev_by keys.cipher keys prev piece.now }
    ensures out_after { out.new ≡ over (block_bytes keys.base number (stretches.stretch_by keys.cipher keys prev at piece.now)) out.old }
{
    slices::copy(&mut out[36..], piece);
    close_block(keys, prev, number, at, piece.len(), out)
}

// Writes the last data block, where there is one, and the closing block.
fn put_last(keys: Keys, prev: [u8; 16], number: u64, at: u64, piece: &[u8], out: &mut [u8])
    requires number_bound { number < 2 ^ 63 }
    requires piece_len_bound { length piece.now < written_block }
    requires piece_in_bounds { length (stretches.last_blocks keys prev number at piece.now) ≤ length out.old }
    ensures { out.new ≡ over (stretches.last_blocks keys prev number at piece.now) out.old }
{
    let c = keys.cipher;
    let base = keys.base;
    let n = text_len(c, piece.len());
    if n == 0 {
        block_stream::seal(out, base, number, 0);
        return;
    }
    lay_text(c, piece, &mut out[36..]);
    close_block(keys, prev, number, at, n, out);
    block_stream::seal(&mut out[36 + n..], base, number + 1, 0);
}

// Writes the blocks of a payload's ciphertext over the front of `out`.
pub(crate) fn write_blocks(keys: Keys, payload: &[u8], out: &mut [u8])
    requires { length (kdbx4.blocks_of keys.base (kdbx4.encryption_by keys.cipher keys payload.now)) ≤ length out.old }
    ensures { out.new ≡ over (kdbx4.blocks_of keys.base (kdbx4.encryption_by keys.cipher keys payload.now)) out.old }
{
    let size = refusals::limits::written_block();
    let mut prev = keys.nonce;
    let mut number: u64 = 0;
    let mut at: usize = 0;
    let mut done: usize = 0;
    for piece in payload.chunks_exact(size) {
        let next = put_block(keys, prev, number, done as u64, piece, &mut out[at..]);
        prev = next;
        number += 1;
        at += 36 + size;
        done += size;
    }
    put_last(
        keys,
        prev,
        number,
        done as u64,
        &payload[done..],
        &mut out[at..],
    );
}
