// Cipher() of FIPS 197 (5.1), a round at a time, on the columns of a block.
ghost use Rattle.std.specs.Prelude.{◌≡◌, ◌<◌};
ghost use Rattle.fips197.specs.Fips197 as fips197;
ghost use Rattle.aes.specs.Columns.{columns};
ghost use Rattle.aes.specs.Repeated.{repeated};
ghost use Rattle.aes.specs.Tabled as tabled;

use crate::block::Columns;
use aes_tables::{column, sub_column};

// AddRoundKey() with round key i.
pub(crate) fn add_round_key(w: &[u32; 60], i: usize, s: Columns) -> Columns
    requires { i < 15 }
    ensures { columns result ≡ fips197.add_round_key (columns s) w.now i }
{
    Columns {
        a: s.a ^ w[4 * i],
        b: s.b ^ w[4 * i + 1],
        c: s.c ^ w[4 * i + 2],
        d: s.d ^ w[4 * i + 3],
    }
}

// Round i.
fn round(te: &[u32; 256], w: &[u32; 60], i: usize, s: Columns) -> Columns
    requires { i < 15 }
    ensures { columns result ≡ tabled.round_by te.now (columns s) w.now i }
{
    let k = w[4 * i];
    let l = w[4 * i + 1];
    let m = w[4 * i + 2];
    let n = w[4 * i + 3];
    Columns {
        a: column(te, s.a, s.b, s.c, s.d, k),
        b: column(te, s.b, s.c, s.d, s.a, l),
        c: column(te, s.c, s.d, s.a, s.b, m),
        d: column(te, s.d, s.a, s.b, s.c, n),
    }
}

// The last round.
fn final_round(te: &[u32; 256], w: &[u32; 60], s: Columns) -> Columns
    ensures { columns result ≡ tabled.final_round_by te.now (columns s) w.now }
{
    let x = Columns {
        a: sub_column(te, s.a, s.b, s.c, s.d),
        b: sub_column(te, s.b, s.c, s.d, s.a),
        c: sub_column(te, s.c, s.d, s.a, s.b),
        d: sub_column(te, s.d, s.a, s.b, s.c),
    };
    add_round_key(w, 14, x)
}

// Cipher() by the table lent: FIPS 197's, where that is te.
pub fn encrypt(te: &[u32; 256], w: &[u32; 60], s: Columns) -> Columns
    ensures { columns result ≡ tabled.cipher_by te.now (columns s) w.now }
{
    let mut x = add_round_key(w, 0, s);
    for i in 1..14 {
        x = round(te, w, i, x);
    }
    final_round(te, w, x)
}

// The same n times.
pub(crate) fn encrypt_repeated(te: &[u32; 256], w: &[u32; 60], s: Columns, n: u32) -> Columns
    ensures { columns result ≡ repeated (λ s. tabled.cipher_by te.now s w.now) n (columns s) }
{
    let mut x = s;
    for _ in 0..n {
        x = encrypt(te, w, x);
    }
    x
}
