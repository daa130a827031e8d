// The writer of a vault (document 01, "File after the header").
//
//   header | its hash (32 bytes) | its tag (32 bytes) | data blocks | closing block
//
// `write` makes every check before it writes a byte: what is refused leaves the lent slice as it was. The contract
// cites specs/Written. Refusals: 4, 9, 5, 11 and 20 of AES-KDF or 22 of Argon2, then 10 or 6, then 1 and 17, in this
// order. A KDF is one of three with its own figures (document 02, Item 6). The nonce, the seeds and the salt are the
// caller's: nothing here makes them, and the payload is not looked at. AES-256's table look-ups are not constant-time.
#![tactic(auto)]

ghost use Rattle.std.specs.Prelude.{◌≡◌, ◌+◌, ◌≤◌, length, take};
ghost use Rattle.refusals.specs.Limits.{file_limit, payload_limit, message_limit};
ghost use Rattle.slices.specs.Over.{over};
ghost use Rattle.header_writer.specs.Written.{header_bytes, header_length};
ghost use Rattle.opening.specs.Steps.{padded};
ghost use Rattle.vault_keys.specs.VaultKeys.{keys_with};
ghost use Rattle.writer.specs.Written as kdbx4;
ghost use Rattle.writer.specs.Stretches as stretches;

use ciphers::Cipher;
use kdf_dictionary::writer::Figures;
use opening::Keys;
use refusals::Refusal;

mod blocks;

// How many bytes a file has.
fn file_len(c: Cipher, figures: Figures, salt: &[u8], custom: &[u8], n: usize) -> usize
    requires salt_len_bound { length salt.now ≤ 64 }
    requires n_le_payload_limit { n ≤ payload_limit }
    ensures { result ≡ stretches.file_length c figures (length salt.now) (length custom.now) n }
{
    let text = blocks::text_len(c, n);
    let size = refusals::limits::written_block();
    let count = (text + (size - 1)) / size + 1;
    header_writer::header_len(c, figures, salt, custom) + 64 + (text + 36 * count)
}

// A seed's bytes.
fn seed_of(s: &[u8]) -> [u8; 32]
    requires { length s.now ≡ 32 }
    ensures { result ≡ s.now }
{
    let mut r = [0u8; 32];
    slices::copy(&mut r, s);
    r
}

// A nonce's bytes, and zeros behind them.
fn nonce_of(s: &[u8]) -> [u8; 16]
    requires { length s.now ≤ 16 }
    ensures { result ≡ padded s.now }
{
    let mut r = [0u8; 16];
    slices::copy(&mut r, s);
    r
}

// Writes the hash and the tag of a header, the first `h` bytes, behind it.
fn write_sums(base: [u8; 64], h: usize, out: &mut [u8])
    requires h_le_message_limit { h ≤ message_limit }
    requires h_in_bounds { h + 64 ≤ length out.old }
    ensures { out.new ≡ over (stretches.summed base (take h out.old)) out.old }
{
    let sum = sha256::hash(&out[..h]).digest;
    let tag = vault_keys::header_tag(base, &out[..h]);
    slices::put(out, h, &sum);
    slices::put(out, h + 32, &tag);
}

// The keys of T and of checked figures.
fn keys_of(c: Cipher, seed: &[u8], nonce: &[u8], t: [u8; 32]) -> Keys
    requires seed_len { length seed.now ≡ 32 }
    requires nonce_len_bound { length nonce.now ≤ 16 }
    ensures { result ≡ keys_with c seed.now (padded nonce.now) t }
{
    let s = seed_of(seed);
    let n = nonce_of(nonce);
    vault_keys::keys_with(c, s, n, t)
}

// Writes a header of checked figures, its hash and its tag. The answer is the place behind them.
fn write_front(
    minor: u16,
    c: Cipher,
    seed: &[u8],
    nonce: &[u8],
    figures: Figures,
    salt: &[u8],
    custom: &[u8],
    base: [u8; 64],
    out: &mut [u8],
) -> usize
    requires sized { stretches.Sized c seed.now nonce.now salt.now }
    requires custom_bound { header_length c figures (length salt.now) (length custom.now) ≤ file_limit }
    requires custom_in_bounds { header_length c figures (length salt.now) (length custom.now) + 64 ≤ length out.old }
    ensures value { result ≡ header_length c figures (length salt.now) (length custom.now) + 64 }
    ensures out_after { out.new ≡ over (stretches.summed base (header_bytes minor c seed.now nonce.now figures salt.now custom.now)) out.old }
{
    let s = seed_of(seed);
    let h = header_writer::header_len(c, figures, salt, custom);
    header_writer::write(minor, c, s, nonce, figures, salt, custom, out);
    write_sums(base, h, out);
    h + 64
}

// Writes a file of checked figures, for which there is room.
fn write_file(
    minor: u16,
    c: Cipher,
    seed: &[u8],
    nonce: &[u8],
    figures: Figures,
    salt: &[u8],
    custom: &[u8],
    t: [u8; 32],
    payload: &[u8],
    out: &mut [u8],
)
    requires sized { stretches.Sized c seed.now nonce.now salt.now }
    requires payload_bound { stretches.file_length c figures (length salt.now) (length custom.now) (length payload.now) ≤ file_limit }
    requires payload_in_bounds { stretches.file_length c figures (length salt.now) (length custom.now) (length payload.now) ≤ length out.old }
    ensures { out.new ≡ over (stretches.file_of minor c seed.now nonce.now figures salt.now custom.now t payload.now) out.old }
{
    let keys = keys_of(c, seed, nonce, t);
    let base = keys.base;
    let at = write_front(minor, c, seed, nonce, figures, salt, custom, base, out);
    blocks::write_blocks(keys, payload, &mut out[at..]);
}

// The limits (1), the room (17), and the file.
fn write_checked(
    minor: u16,
    c: Cipher,
    seed: &[u8],
    nonce: &[u8],
    figures: Figures,
    salt: &[u8],
    custom: &[u8],
    t: [u8; 32],
    payload: &[u8],
    out: &mut [u8],
) -> Result<usize, Refusal>
    requires { stretches.Sized c seed.now nonce.now salt.now }
    ensures value { result ≡ kdbx4.settled kdbx4.sizes (length payload.now) (length (stretches.file_of minor c seed.now nonce.now figures salt.now custom.now t payload.now)) (length out.old) }
    ensures out_after { out.new ≡ over (stretches.bytes_of result (stretches.file_of minor c seed.now nonce.now figures salt.now custom.now t payload.now)) out.old }
{
    let n = payload.len();
    if refusals::limits::payload_fits(n) {
        let f = file_len(c, figures, salt, custom, n);
        if refusals::limits::file_fits(f) {
            if out.len() < f {
                return Err(Refusal::NoRoom);
            }
            write_file(
                minor, c, seed, nonce, figures, salt, custom, t, payload, out,
            );
            return Ok(f);
        }
        return Err(Refusal::TooLong);
    }
    Err(Refusal::TooLong)
}

// Writes the vault of minor version, cipher's identifier, master seed, nonce, the KDF's figures, its seed or salt,
// custom dictionary (of no bytes where it is absent), T and payload over the front of `out`.
pub fn write(
    minor: u16,
    cipher: &[u8],
    seed: &[u8],
    nonce: &[u8],
    figures: Figures,
    salt: &[u8],
    custom: &[u8],
    t: [u8; 32],
    payload: &[u8],
    out: &mut [u8],
) -> Result<usize, Refusal>
    ensures value { result ≡ kdbx4.writing (kdbx4.figures minor cipher.now seed.now nonce.now figures salt.now custom.now) t payload.now (length out.old) }
    ensures out_after { out.new ≡ over (kdbx4.shown (kdbx4.figures minor cipher.now seed.now nonce.now figures salt.now custom.now) t payload.now (length out.old)) out.old }
{
    match header_writer::check(minor, cipher, seed, nonce, figures, salt, custom) {
        Err(r) => return Err(r),
        Ok(c) => return write_checked(
            minor, c, seed, nonce, figures, salt, custom, t, payload, out,
        ),
    }
}
