// The Salsa20 specification's block function, in place on sixteen words.
//
// The four quarterrounds of a round touch different words, so they are taken in place, and in an order that keeps more
// words in registers than the specification's.
ghost use Rattle.std.specs.Prelude.{◌≡◌, ◌++◌, ◌<◌, length};
ghost use Rattle.std.specs.Int.Bits.{bit_xor};
ghost use Rattle.words.specs.Word as word;
ghost use Rattle.words.specs.Endian as endian;
ghost use Rattle.salsa20.specs.Salsa20 as salsa20;
ghost use Rattle.salsa20.specs.State as state;

use stream::serialize_sum;
use words::le::u32_at;
use words::plus32;

// Four words of a state.
#[derive(Clone, Copy)]
pub(crate) struct Four {
    pub y0: u32,
    pub y1: u32,
    pub y2: u32,
    pub y3: u32,
}

// 3: a quarterround on four words.
fn quarterround(y0: u32, y1: u32, y2: u32, y3: u32) -> Four
    ensures { state.four result ≡ salsa20.quarterround (record { y0 = y0; y1 = y1; y2 = y2; y3 = y3 }) }
{
    let z1 = y1 ^ plus32(y0, y3).rotate_left(7);
    let z2 = y2 ^ plus32(z1, y0).rotate_left(9);
    let z3 = y3 ^ plus32(z2, z1).rotate_left(13);
    let z0 = y0 ^ plus32(z3, z2).rotate_left(18);
    Four {
        y0: z0,
        y1: z1,
        y2: z2,
        y3: z3,
    }
}

// 4 and 5: a quarterround on four words of a state.
fn qround(s: &mut [u32; 16], i: usize, j: usize, k: usize, l: usize)
    requires { (i < 16) × ((j < 16) × ((k < 16) × (l < 16))) }
    ensures { s.new ≡ state.qround s.old i j k l }
{
    let q = quarterround(s[i], s[j], s[k], s[l]);
    s[i] = q.y0;
    s[j] = q.y1;
    s[k] = q.y2;
    s[l] = q.y3;
}

// 6: a columnround and a rowround.
fn doubleround(s: &mut [u32; 16])
    requires { length s.old ≡ 16 }
    ensures { s.new ≡ salsa20.doubleround s.old }
{
    qround(s, 15, 3, 7, 11);
    qround(s, 0, 4, 8, 12);
    qround(s, 10, 14, 2, 6);
    qround(s, 5, 9, 13, 1);
    qround(s, 15, 12, 13, 14);
    qround(s, 5, 6, 7, 4);
    qround(s, 0, 1, 2, 3);
    qround(s, 10, 11, 8, 9);
}

// 8: twenty rounds.
fn rounds(s: &mut [u32; 16])
    requires { length s.old ≡ 16 }
    ensures { s.new ≡ salsa20.doublerounds 10 s.old }
{
    for _ in 0..10u32 {
        doubleround(s);
    }
}

// 9: the state that a block starts from.
fn expanded(key: [u8; 32], counter: u64, nonce: [u8; 8]) -> [u32; 16]
    ensures { result ≡ salsa20.expanded key (nonce ++ endian.le_bytes 8 counter) }
{
    [
        0x61707865,
        u32_at(&key, 0),
        u32_at(&key, 4),
        u32_at(&key, 8),
        u32_at(&key, 12),
        0x3320646e,
        u32_at(&nonce, 0),
        u32_at(&nonce, 4),
        (counter % 0x1_0000_0000) as u32,
        (counter / 0x1_0000_0000) as u32,
        0x79622d32,
        u32_at(&key, 16),
        u32_at(&key, 20),
        u32_at(&key, 24),
        u32_at(&key, 28),
        0x6b206574,
    ]
}

// 10: the block of a key, a counter and a nonce.
pub(crate) fn block(key: [u8; 32], counter: u64, nonce: [u8; 8]) -> [u8; 64]
    ensures { result ≡ salsa20.block key counter nonce }
{
    let initial = expanded(key, counter, nonce);
    let mut state = initial;
    rounds(&mut state);
    serialize_sum(state, initial)
}
