// RFC 8439's block function (2.1 to 2.3), in place on sixteen words.
//
// The four quarter rounds of a round touch different words, so they are taken in an order that keeps more words in
// registers than RFC 8439's.
ghost use Rattle.std.specs.Prelude.{◌≡◌, ◌<◌, length};
ghost use Rattle.std.specs.Int.Bits.{bit_xor};
ghost use Rattle.words.specs.Word as word;
ghost use Rattle.chacha20.specs.Rfc8439 as rfc8439;
ghost use Rattle.chacha20.specs.State.{four};

use stream::serialize_sum;
use words::le::u32_at;
use words::plus32;

// Four words of a state.
#[derive(Clone, Copy)]
pub(crate) struct Four {
    pub a: u32,
    pub b: u32,
    pub c: u32,
    pub d: u32,
}

// 2.1: a quarter round on four words.
fn quarter_round(a: u32, b: u32, c: u32, d: u32) -> Four
    ensures { four result ≡ rfc8439.quarter_round (record { a = a; b = b; c = c; d = d }) }
{
    let a1 = plus32(a, b);
    let d1 = (d ^ a1).rotate_left(16);
    let c1 = plus32(c, d1);
    let b1 = (b ^ c1).rotate_left(12);
    let a2 = plus32(a1, b1);
    let d2 = (d1 ^ a2).rotate_left(8);
    let c2 = plus32(c1, d2);
    let b2 = (b1 ^ c2).rotate_left(7);
    Four {
        a: a2,
        b: b2,
        c: c2,
        d: d2,
    }
}

// 2.2: a quarter round on four words of a state.
fn qround(s: &mut [u32; 16], x: usize, y: usize, z: usize, w: usize)
    requires { (x < 16) × ((y < 16) × ((z < 16) × (w < 16))) }
    ensures { s.new ≡ rfc8439.qround s.old x y z w }
{
    let q = quarter_round(s[x], s[y], s[z], s[w]);
    s[x] = q.a;
    s[y] = q.b;
    s[z] = q.c;
    s[w] = q.d;
}

// 2.3.1: a column round and a diagonal round.
fn inner_block(s: &mut [u32; 16])
    requires { length s.old ≡ 16 }
    ensures { s.new ≡ rfc8439.inner_block s.old }
{
    qround(s, 0, 4, 8, 12);
    qround(s, 3, 7, 11, 15);
    qround(s, 1, 5, 9, 13);
    qround(s, 2, 6, 10, 14);
    qround(s, 3, 4, 9, 14);
    qround(s, 0, 5, 10, 15);
    qround(s, 1, 6, 11, 12);
    qround(s, 2, 7, 8, 13);
}

// 2.3: twenty rounds.
fn rounds(s: &mut [u32; 16])
    requires { length s.old ≡ 16 }
    ensures { s.new ≡ rfc8439.inner_blocks 10 s.old }
{
    for _ in 0..10u32 {
        inner_block(s);
    }
}

// 2.3: the state that a block starts from.
fn initial_state(key: [u8; 32], counter: u32, nonce: [u8; 12]) -> [u32; 16]
    ensures { result ≡ rfc8439.initial_state key counter nonce }
{
    [
        0x61707865,
        0x3320646e,
        0x79622d32,
        0x6b206574,
        u32_at(&key, 0),
        u32_at(&key, 4),
        u32_at(&key, 8),
        u32_at(&key, 12),
        u32_at(&key, 16),
        u32_at(&key, 20),
        u32_at(&key, 24),
        u32_at(&key, 28),
        counter,
        u32_at(&nonce, 0),
        u32_at(&nonce, 4),
        u32_at(&nonce, 8),
    ]
}

// 2.3: the block of a key, a counter and a nonce.
pub(crate) fn block(key: [u8; 32], counter: u32, nonce: [u8; 12]) -> [u8; 64]
    ensures { result ≡ rfc8439.block key counter nonce }
{
    let initial = initial_state(key, counter, nonce);
    let mut state = initial;
    rounds(&mut state);
    serialize_sum(state, initial)
}
