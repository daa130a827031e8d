// Argon2's compression of a block (RFC 9106, 3.5 and 3.6): the permutation of 128 words.
//
// The contracts cite specs/Rfc9106, and specs/Order for the code's steps. `permute` takes R to Z in place; who fills
// memory (the crate argon2_fill) makes R of two blocks and stores the exclusive or of Z and R. Nothing is refused. No
// index depends on the words; of branches see docs/PROMISES.md, "Not claimed". An `ensures` that asks for 128 words asks
// nothing of an array: the proofs know no length of what lies behind a reference, and the owner of the array does.
#![tactic(auto)]

ghost use Rattle.std.specs.Prelude.{◌≡◌, ◌+◌, ◌*◌, ◌%◌, ◌^◌, ◌<◌, ◌≤◌, length, bit_xor};
ghost use Rattle.words.specs.Word as word;
ghost use Rattle.argon2_block.specs.Rfc9106 as rfc9106;
ghost use Rattle.argon2_block.specs.Order as order;
ghost use Rattle.argon2_block.specs.State.{four};

// Four words of a block.
#[derive(Clone, Copy)]
struct Words {
    a: u64,
    b: u64,
    c: u64,
    d: u64,
}

// trunc(x): the low half of a word.
fn trunc(x: u64) -> u64
    ensures { (result ≡ x % 2 ^ 32) × (result < 2 ^ 32) }
{
    x % 0x1_0000_0000
}

// The product of the low halves of two words.
fn product(x: u64, y: u64) -> u64
    ensures { result ≡ (x % 2 ^ 32) * (y % 2 ^ 32) }
{
    trunc(x) * trunc(y)
}

// The word that y is to be added to for x.
fn minus64(x: u64, y: u64) -> u64
    ensures { word.plus 64 result y ≡ x }
{
    x.wrapping_sub(y)
}

// 3.6: x + y + 2 * trunc(x) * trunc(y), as 2 * (trunc(x) * trunc(y) + y) + (x - y): the compiler does not move this
// doubling into the product, where it would no longer be one of two halves.
fn mul_add(x: u64, y: u64) -> u64
    ensures { result ≡ rfc9106.mul_add x y }
{
    let u = product(x, y).wrapping_add(y);
    u.wrapping_add(u).wrapping_add(minus64(x, y))
}

// 3.6: GB on four words.
fn gb(a: u64, b: u64, c: u64, d: u64) -> Words
    ensures { four result ≡ rfc9106.gb (record { a = a; b = b; c = c; d = d }) }
{
    let a1 = mul_add(a, b);
    let d1 = (d ^ a1).rotate_right(32);
    let c1 = mul_add(c, d1);
    let b1 = (b ^ c1).rotate_right(24);
    let a2 = mul_add(a1, b1);
    let d2 = (d1 ^ a2).rotate_right(16);
    let c2 = mul_add(c1, d2);
    let b2 = (b1 ^ c2).rotate_right(63);
    Words {
        a: a2,
        b: b2,
        c: c2,
        d: d2,
    }
}

// 3.6: GB on four words of a block.
fn gb_on(s: &mut [u64; 128], i: usize, j: usize, k: usize, l: usize)
    requires { (i < 128) × ((j < 128) × ((k < 128) × (l < 128))) }
    ensures { s.new ≡ rfc9106.gb_on s.old i j k l }
{
    let q = gb(s[i], s[j], s[k], s[l]);
    s[i] = q.a;
    s[j] = q.b;
    s[k] = q.c;
    s[l] = q.d;
}

// GB on n times four words of a block, from four places on: words one after the other, so that a compiler takes two
// at once.
fn gbs(s: &mut [u64; 128], i: usize, j: usize, k: usize, l: usize, n: usize)
    requires { (i + n ≤ 128) × ((j + n ≤ 128) × ((k + n ≤ 128) × (l + n ≤ 128))) }
    ensures { s.new ≡ order.gbs n s.old i j k l }
{
    for t in 0..n {
        gb_on(s, i + t, j + t, k + t, l + t);
    }
}

// Moves four words of a block by one place, the first to the last.
fn cycle(s: &mut [u64; 128], i: usize, j: usize, k: usize, l: usize)
    requires { (i < 128) × ((j < 128) × ((k < 128) × (l < 128))) }
    ensures { s.new ≡ order.cycle s.old i j k l }
{
    let a = s[i];
    let b = s[j];
    let c = s[k];
    let d = s[l];
    s[i] = b;
    s[j] = c;
    s[k] = d;
    s[l] = a;
}

// The same eight times, each two places on.
fn cycles(s: &mut [u64; 128], i: usize, j: usize, k: usize, l: usize)
    requires { (i < 114) × ((j < 114) × ((k < 114) × (l < 114))) }
    ensures { s.new ≡ order.cycles 8 s.old i j k l }
{
    for t in 0..8 {
        cycle(s, i + t * 2, j + t * 2, k + t * 2, l + t * 2);
    }
}

// 3.5: P on each column: its first half on all, then its second on all. For the second the words of registers 2, 3, 6
// and 7 are moved, and moved back, so that the words of one GB after the other stand one after the other there too.
fn columns(s: &mut [u64; 128])
    ensures { length s.old ≡ 128 → s.new ≡ rfc9106.columns 8 s.old }
{
    gbs(s, 0, 32, 64, 96, 32);
    cycles(s, 32, 33, 48, 49);
    cycles(s, 113, 112, 97, 96);
    gbs(s, 0, 32, 80, 96, 16);
    gbs(s, 16, 48, 64, 112, 16);
    cycles(s, 49, 48, 33, 32);
    cycles(s, 96, 97, 112, 113);
}

// Exchanges two registers of a block.
fn exchange(s: &mut [u64; 128], i: usize, j: usize)
    requires { (i < 127) × (j < 127) }
    ensures { s.new ≡ order.exchange s.old i j }
{
    let a = s[i];
    let b = s[i + 1];
    let c = s[j];
    let d = s[j + 1];
    s[i] = c;
    s[i + 1] = d;
    s[j] = a;
    s[j + 1] = b;
}

// Exchanges the first n registers of row n with those of column n.
fn turn_row(s: &mut [u64; 128], n: usize)
    requires { n < 8 }
    ensures { s.new ≡ order.turn_row n s.old n }
{
    for i in 0..n {
        exchange(s, n * 16 + i * 2, i * 16 + n * 2);
    }
}

// Exchanges rows and columns.
fn turn(s: &mut [u64; 128])
    ensures { s.new ≡ order.turn 8 s.old }
{
    for n in 0..8 {
        turn_row(s, n);
    }
}

// 3.5: R to Z. P on each row is P on each column of the block with rows and columns exchanged.
pub fn permute(z: &mut [u64; 128])
    ensures { length z.old ≡ 128 → z.new ≡ rfc9106.permuted z.old }
{
    turn(z);
    columns(z);
    turn(z);
    columns(z);
}
