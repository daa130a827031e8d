// KeyExpansion() of FIPS 197 (5.2), and the dual key schedule (5.3.5).
ghost use Rattle.std.specs.Prelude.{◌≡◌, ◌*◌, ◌<◌, take};
ghost use Rattle.fips197.specs.Fips197 as fips197;
ghost use Rattle.aes_tables.specs.Tables as tables;
ghost use Rattle.aes.specs.Tabled as tabled;

use aes_tables::{column, sub_column};

// SubWord() by the table lent.
fn sub_word(te: &[u32; 256], w: u32) -> u32
    ensures { result ≡ tables.sub_column te.now w w w w }
{
    sub_column(te, w, w, w, w)
}

// RotWord().
fn rot_word(w: u32) -> u32
    ensures { result ≡ fips197.rot_word w }
{
    (w % 0x100_0000) * 0x100 + w / 0x100_0000
}

// Rcon[j]: {02} to the power j - 1 does not reach {80} • {02} before j = 9.
fn rcon(j: usize) -> u32
    requires { j < 8 }
    ensures { result ≡ fips197.rcon j }
{
    if j == 0 {
        return 0;
    }
    1u32 << (23 + j)
}

// What is added to make word i, from the word before it.
fn temp(te: &[u32; 256], i: usize, p: u32) -> u32
    requires { i < 60 }
    ensures { te.now ≡ tables.te → result ≡ fips197.temp i p }
{
    if i % 8 == 0 {
        return sub_word(te, rot_word(p)) ^ rcon(i / 8);
    }
    if i % 8 == 4 {
        return sub_word(te, p);
    }
    p
}

// The words of the key, and zeros behind them.
fn key_words(key: [u8; 32]) -> [u32; 60]
    ensures { take 8 result ≡ fips197.expanded key 0 }
{
    let mut w = [0u32; 60];
    for i in 0..8 {
        w[i] = words::be::u32_at(&key, 4 * i);
    }
    w
}

// KeyExpansion(), where the table lent is te.
pub(crate) fn expand(te: &[u32; 256], key: [u8; 32]) -> [u32; 60]
    ensures { te.now ≡ tables.te → result ≡ fips197.key_expansion key }
{
    let mut w = key_words(key);
    for i in 8..60 {
        w[i] = w[i - 8] ^ temp(te, i, w[i - 1]);
    }
    w
}

// A word as a column by td, at its bytes by te: InvMixColumns() of it, where those are the tables.
fn inv_mix_word(te: &[u32; 256], td: &[u32; 256], w: u32) -> u32
    ensures { result ≡ tables.column_word td.now (tables.sub_column te.now w w w w) }
{
    let z = sub_word(te, w);
    column(td, z, z, z, z, 0)
}

// Word i of the dual key schedule.
fn dual_word(te: &[u32; 256], td: &[u32; 256], i: usize, w: u32) -> u32
    ensures { result ≡ tabled.dual_word_by te.now td.now i w }
{
    // A match on ranges was tried: 40 instructions a word, these tests 25.
    if i < 4 {
        return w;
    }
    if i < 56 {
        return inv_mix_word(te, td, w);
    }
    w
}

// The dual key schedule by the tables lent: FIPS 197's, where those are te and td.
pub fn dual(te: &[u32; 256], td: &[u32; 256], w: [u32; 60]) -> [u32; 60]
    ensures { result ≡ tabled.dual_by te.now td.now w }
{
    let mut v = [0u32; 60];
    for i in 0..60 {
        v[i] = dual_word(te, td, i, w[i]);
    }
    v
}
