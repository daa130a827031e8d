// EqInvCipher() of FIPS 197 (5.3.5), a round at a time, on the columns of a block and the dual key schedule.
ghost use Rattle.std.specs.Prelude.{◌≡◌, ◌<◌};
ghost use Rattle.aes.specs.Columns.{columns};
ghost use Rattle.aes.specs.Tabled as tabled;

use crate::block::Columns;
use crate::cipher::add_round_key;
use aes_tables::{column, inv_sub_column};

// Round i.
fn inv_round(td: &[u32; 256], v: &[u32; 60], i: usize, s: Columns) -> Columns
    requires { i < 15 }
    ensures { columns result ≡ tabled.eq_inv_round_by td.now (columns s) v.now i }
{
    let k = v[4 * i];
    let l = v[4 * i + 1];
    let m = v[4 * i + 2];
    let n = v[4 * i + 3];
    Columns {
        a: column(td, s.a, s.d, s.c, s.b, k),
        b: column(td, s.b, s.a, s.d, s.c, l),
        c: column(td, s.c, s.b, s.a, s.d, m),
        d: column(td, s.d, s.c, s.b, s.a, n),
    }
}

// The last round.
fn inv_final_round(inverse: &[u8; 256], v: &[u32; 60], s: Columns) -> Columns
    ensures { columns result ≡ tabled.eq_inv_final_round_by inverse.now (columns s) v.now }
{
    let x = Columns {
        a: inv_sub_column(inverse, s.a, s.d, s.c, s.b),
        b: inv_sub_column(inverse, s.b, s.a, s.d, s.c),
        c: inv_sub_column(inverse, s.c, s.b, s.a, s.d),
        d: inv_sub_column(inverse, s.d, s.c, s.b, s.a),
    };
    add_round_key(v, 0, x)
}

// EqInvCipher() by the tables lent: FIPS 197's, where those are inverse and td, and then InvCipher() on the key schedule
// that v is the dual of.
pub fn decrypt(inverse: &[u8; 256], td: &[u32; 256], v: &[u32; 60], s: Columns) -> Columns
    ensures { columns result ≡ tabled.eq_inv_cipher_by inverse.now td.now (columns s) v.now }
{
    let mut x = add_round_key(v, 14, s);
    for i in (0..13).rev() {
        x = inv_round(td, v, i + 1, x);
    }
    inv_final_round(inverse, v, x)
}
