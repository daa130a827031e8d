// A data block's part for AES-256: the held bytes and the block's data are one run. Its whole pieces are due but for
// the last, which may be padding; they are decrypted in the lent output, and the rest is held.
ghost use Rattle.std.specs.Prelude.{◌≡◌, ◌++◌, ◌+◌, ◌≤◌, ◌<◌, length, take, drop, get_or};
ghost use Rattle.ciphers.specs.declared.Cipher.TheVariants.{Aes256};
ghost use Rattle.cbc.specs.Sp80038a.{previous};
ghost use Rattle.aes_cbc.specs.Aes256Cbc as aes256_cbc;
ghost use Rattle.slices.specs.Over.{over};
ghost use Rattle.opening.specs.Steps as steps;
ghost use Rattle.opener.specs.Counts as counts;

use aes::RoundKeys;
use opening::Keys;

// What a block leaves behind: the ciphertext piece before the held bytes, and the held bytes.
#[derive(Clone, Copy)]
pub struct Carried {
    pub prev: [u8; 16],
    pub held: [u8; 16],
}

// How many bytes are held after c bytes of ciphertext.
pub fn held_count(c: usize) -> usize
    ensures { (result ≡ counts.held_count c) × (result ≤ 16) }
{
    if c == 0 {
        return 0;
    }
    c - 16 * ((c - 1) / 16)
}

// Of n bytes, held ones and data, how many are due.
pub fn due_count(n: usize) -> usize
    ensures { result ≡ counts.due_count n }
{
    if n == 0 {
        return 0;
    }
    16 * ((n - 1) / 16)
}

// Byte j of the first h held bytes and the data.
fn joined_at(held: [u8; 16], h: usize, d: &[u8], j: usize) -> u8
    requires h_bound { h ≤ 16 }
    requires j_bound { j < h + length d.now }
    ensures { result ≡ get_or (take h held ++ d.now) j 0 }
{
    if j < h {
        return held[j];
    }
    d[j - h]
}

// The bytes that stay held: those from `at` on, in an array of sixteen.
fn keep(held: [u8; 16], h: usize, d: &[u8], at: usize) -> [u8; 16]
    requires h_bound { h ≤ 16 }
    requires at_bound { at ≤ h + length d.now }
    requires d_bound { h + length d.now ≤ at + 16 }
    ensures { result ≡ steps.padded (drop at (take h held ++ d.now)) }
{
    let n = h + d.len() - at;
    let mut a = [0u8; 16];
    for i in 0..n {
        a[i] = joined_at(held, h, d, at + i);
    }
    a
}

// Fills `out` with the first h held bytes and the data behind them.
fn fill(held: [u8; 16], h: usize, d: &[u8], out: &mut [u8])
    requires h_bound { h ≤ 16 }
    requires out_len_bound { length out.old ≤ h + length d.now }
    ensures { out.new ≡ take (length out.old) (take h held ++ d.now) }
{
    slices::copy(out, &held[..h]);
    if h < out.len() {
        slices::copy(&mut out[h..], d);
    }
}

// Fills `out` so and decrypts it. The answer is the ciphertext piece for what follows.
fn decrypt_run(
    keys: RoundKeys,
    prev: [u8; 16],
    held: [u8; 16],
    h: usize,
    d: &[u8],
    out: &mut [u8],
) -> [u8; 16]
    requires h_bound { h ≤ 16 }
    requires out_len_bound { length out.old ≤ h + length d.now }
    ensures value { result ≡ previous prev (take (length out.old) (take h held ++ d.now)) }
    ensures out_after { out.new ≡ over (aes256_cbc.decrypt keys.words prev (take (length out.old) (take h held ++ d.now))) (take (length out.old) (take h held ++ d.now)) }
{
    fill(held, h, d, out);
    aes_cbc::decrypt_cbc(keys, prev, out)
}

// A data block taken behind c bytes of ciphertext.
pub(crate) fn take_aes(
    keys: Keys,
    c: usize,
    prev: [u8; 16],
    held: [u8; 16],
    d: &[u8],
    out: &mut [u8],
) -> Carried
    requires { counts.due_by Aes256 c (length d.now) ≤ length out.old }
    ensures prev_value { result.prev ≡ steps.prev_by Aes256 c prev held d.now }
    ensures held_value { result.held ≡ steps.held_by Aes256 c held d.now }
    ensures out_after { out.new ≡ over (steps.bytes_by Aes256 keys c prev held d.now) out.old }
{
    let h = held_count(c);
    let n = due_count(h + d.len());
    let words = keys.round_keys;
    let v = decrypt_run(words, prev, held, h, d, &mut out[..n]);
    let k = keep(held, h, d, n);
    Carried { prev: v, held: k }
}
