// CBC encryption and decryption (SP 800-38A, 6.2) under AES-256 (FIPS 197), in place.
//
// A run of bytes is lent and changed where it stands; the ciphertext block before it, at first the IV, goes in by value
// and the one for what follows comes back. The whole blocks of the run count: the bytes behind the last one stay as
// they were. The contracts cite specs/Aes256Cbc, which is crate cbc's encrypt and decrypt over crate fips197's cipher
// and inv_cipher. Each call builds its tables: some 2,000 instructions to encrypt, 8,000 to decrypt. Table look-ups are
// not constant-time.
#![tactic(auto)]

ghost use Rattle.std.specs.Prelude.{◌≡◌, ◌≤◌, length, take};
ghost use Rattle.aes_tables.specs.Tables as tables;
ghost use Rattle.aes.specs.Columns.{columns};
ghost use Rattle.slices.specs.Over.{over};
ghost use Rattle.cbc.specs.Sp80038a as sp80038a;
ghost use Rattle.aes_cbc.specs.Aes256Cbc as aes256_cbc;

use aes::block::Columns;
use aes::{RoundKeys, block, cipher, inv_cipher, schedule};

// The block at the front of a slice.
fn load_front(s: &[u8]) -> Columns
    requires { 16 ≤ length s.now }
    ensures { columns result ≡ take 16 s.now }
{
    let mut block = [0u8; 16];
    block.copy_from_slice(&s[..16]);
    block::load(block)
}

// Writes a block over the front of a slice.
fn store_front(out: &mut [u8], x: Columns)
    requires { 16 ≤ length out.old }
    ensures { out.new ≡ over (columns x) out.old }
{
    out[..16].copy_from_slice(&block::store(x));
}

// Encrypts the whole blocks of a run, with a lent table and key schedule.
fn encrypt_run(te: &[u32; 256], w: &[u32; 60], prev: Columns, out: &mut [u8]) -> Columns
    requires { te.now ≡ tables.te }
    ensures result_value { columns result ≡ sp80038a.previous (columns prev) (aes256_cbc.encrypt w.now (columns prev) out.old) }
    ensures out_after { out.new ≡ over (aes256_cbc.encrypt w.now (columns prev) out.old) out.old }
{
    let mut before = prev;
    for i in 0..out.len() / 16 {
        let at = 16 * i;
        let p = load_front(&out[at..]);
        let c = cipher::encrypt(te, w, block::xor(p, before));
        store_front(&mut out[at..], c);
        before = c;
    }
    before
}

// Decrypts the whole blocks of a run, with lent tables and a dual key schedule.
fn decrypt_run(
    inverse: &[u8; 256],
    td: &[u32; 256],
    v: &[u32; 60],
    prev: Columns,
    out: &mut [u8],
) -> Columns
    requires { (inverse.now ≡ tables.inverse) × (td.now ≡ tables.td) }
    ensures result_value { columns result ≡ sp80038a.previous (columns prev) out.old }
    ensures out_after { out.new ≡ over (aes256_cbc.eq_decrypt v.now (columns prev) out.old) out.old }
{
    let mut before = prev;
    for i in 0..out.len() / 16 {
        let at = 16 * i;
        let x = load_front(&out[at..]);
        let p = inv_cipher::decrypt(inverse, td, v, x);
        store_front(&mut out[at..], block::xor(p, before));
        before = x;
    }
    before
}

// Encrypts the whole blocks of a run. The answer is the ciphertext block for what follows.
pub fn encrypt_cbc(keys: RoundKeys, prev: [u8; 16], out: &mut [u8]) -> [u8; 16]
    ensures value { result ≡ sp80038a.previous prev (aes256_cbc.encrypt keys.words prev out.old) }
    ensures out_after { out.new ≡ over (aes256_cbc.encrypt keys.words prev out.old) out.old }
{
    let te = aes_tables::te();
    let words = keys.words;
    let before = encrypt_run(&te, &words, block::load(prev), out);
    block::store(before)
}

// Decrypts the whole blocks of a run. The answer is the ciphertext block for what follows.
pub fn decrypt_cbc(keys: RoundKeys, prev: [u8; 16], out: &mut [u8]) -> [u8; 16]
    ensures value { result ≡ sp80038a.previous prev out.old }
    ensures out_after { out.new ≡ over (aes256_cbc.decrypt keys.words prev out.old) out.old }
{
    let te = aes_tables::te();
    let inverse = aes_tables::inverse();
    let td = aes_tables::td(&inverse);
    let words = keys.words;
    let dual = schedule::dual(&te, &td, words);
    let before = decrypt_run(&inverse, &td, &dual, block::load(prev), out);
    block::store(before)
}
