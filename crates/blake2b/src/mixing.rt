// RFC 7693, 3.1 and 3.2: the mixing function G, and the rounds of the compression function, in place on sixteen words.
ghost use Rattle.std.specs.Prelude.{◌≡◌, ◌+◌, ◌≤◌, ◌<◌, length};
ghost use Rattle.std.specs.Int.Bits.{bit_xor};
ghost use Rattle.words.specs.Word as word;
ghost use Rattle.blake2b.specs.Rfc7693 as rfc7693;
ghost use Rattle.blake2b.specs.Working.{four, scheduled_g};

use crate::tables::SIGMA;

// 2.1: the rotation constants.
const R1: u32 = 32;

const R2: u32 = 24;

const R3: u32 = 16;

const R4: u32 = 63;

// Four words of the working vector.
#[derive(Clone, Copy)]
pub(crate) struct Four {
    pub a: u64,
    pub b: u64,
    pub c: u64,
    pub d: u64,
}

// 3.1: the mixing of four words with two of the message.
fn mix(a: u64, b: u64, c: u64, d: u64, x: u64, y: u64) -> Four
    ensures { four result ≡ rfc7693.mix (record { a = a; b = b; c = c; d = d }) x y }
{
    let a1 = a.wrapping_add(b).wrapping_add(x);
    let d1 = (d ^ a1).rotate_right(R1);
    let c1 = c.wrapping_add(d1);
    let b1 = (b ^ c1).rotate_right(R2);
    let a2 = a1.wrapping_add(b1).wrapping_add(y);
    let d2 = (d1 ^ a2).rotate_right(R3);
    let c2 = c1.wrapping_add(d2);
    let b2 = (b1 ^ c2).rotate_right(R4);
    Four {
        a: a2,
        b: b2,
        c: c2,
        d: d2,
    }
}

// 3.1: G on four words of the working vector, with the two words of the message that SIGMA names from a place on.
fn g(v: &mut [u64; 16], m: &[u64; 16], at: usize, a: usize, b: usize, c: usize, d: usize)
    requires at_bound { at + 2 ≤ 160 }
    requires a_bound { (a < 16) × ((b < 16) × ((c < 16) × (d < 16))) }
    ensures { v.new ≡ scheduled_g m.now at v.old a b c d }
{
    let x = m[SIGMA[at] as usize];
    let y = m[SIGMA[at + 1] as usize];
    let q = mix(v[a], v[b], v[c], v[d], x, y);
    v[a] = q.a;
    v[b] = q.b;
    v[c] = q.c;
    v[d] = q.d;
}

// 3.2: the eight mixings of a round, by the row of SIGMA that begins at a place.
fn round(v: &mut [u64; 16], m: &[u64; 16], row: usize)
    requires row_bound { row + 16 ≤ 160 }
    ensures { v.new ≡ rfc7693.round_on m.now row v.old }
{
    g(v, m, row, 0, 4, 8, 12);
    g(v, m, row + 2, 1, 5, 9, 13);
    g(v, m, row + 4, 2, 6, 10, 14);
    g(v, m, row + 6, 3, 7, 11, 15);
    g(v, m, row + 8, 0, 5, 10, 15);
    g(v, m, row + 10, 1, 6, 11, 12);
    g(v, m, row + 12, 2, 7, 8, 13);
    g(v, m, row + 14, 3, 4, 9, 14);
}

// 3.2: all 12 rounds.
pub(crate) fn rounds(v: &mut [u64; 16], m: &[u64; 16])
    requires v_len { length v.old ≡ 16 }
    ensures { v.new ≡ rfc7693.rounds 12 m.now v.old }
{
    for i in 0..12 {
        round(v, m, 16 * (i % 10));
    }
}
