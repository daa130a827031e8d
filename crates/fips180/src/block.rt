// FIPS 180-4, 6.2.2 and 6.4.2: the message schedule, one block, and all whole blocks of a slice, straight from it.
//
// The constants are lent, since a constant that is read at an index is copied whole at each reading.
ghost use Rattle.std.specs.Prelude.{◌≡◌, ◌-◌, ◌≤◌, length, map, take};
ghost use Rattle.fips180.specs.Fips180 as fips180;
ghost use Rattle.fips180.specs.Lent as lent;
ghost use Rattle.fips180.specs.Lent.{lending, Suits};
ghost use Rattle.fips180.specs.Working.{words as words_of};

use crate::reading::Reading;
use crate::rounds::Working;
use crate::word::Word;

// Step 1: the sixteen words of a block.
fn load<W: Word, R: Reading<W>>(w: &mut [W], block: &[u8])
    requires w_len { 16 ≤ length w.old }
    requires in_bounds { fips180.block_bytes W.sha2 ≤ length block.now }
    ensures { take 16 (map W.number w.new) ≡ fips180.block_words W.sha2 16 block.now }
{
    for i in 0..16 {
        w[i] = R::word(block, i);
    }
}

// Step 1: the words after the first sixteen.
fn extend<W: Word>(w: &mut [W])
    requires { 16 ≤ length w.old }
    ensures { map W.number w.new ≡ fips180.grow W.sha2 (length w.old - 16) (take 16 (map W.number w.old)) }
{
    for i in 16..w.len() {
        w[i] = crate::rounds::next_word(w[i - 2], w[i - 7], w[i - 15], w[i - 16]);
    }
}

// The hash value after a block.
fn compress<W: Word, R: Reading<W>, const N: usize>(
    h: Working<W>,
    block: &[u8],
    k: &[W; N],
) -> Working<W>
    requires in_bounds { fips180.block_bytes W.sha2 ≤ length block.now }
    requires suits { Suits (map W.number k.now) }
    ensures { words_of W.number result
        ≡ fips180.compress (lending (map W.number k.now) W.sha2) (words_of W.number h) block.now }
{
    let mut w = [W::ZERO; N];
    load::<W, R>(&mut w, block);
    extend(&mut w);
    let t = crate::rounds::rounds(h, &w, k);
    Working {
        a: h.a.plus(t.a),
        b: h.b.plus(t.b),
        c: h.c.plus(t.c),
        d: h.d.plus(t.d),
        e: h.e.plus(t.e),
        f: h.f.plus(t.f),
        g: h.g.plus(t.g),
        h: h.h.plus(t.h),
    }
}

// The hash value after every whole block of `s`.
pub(crate) fn blocks<W: Word, R: Reading<W>, const N: usize>(
    h: Working<W>,
    s: &[u8],
    k: &[W; N],
) -> Working<W>
    requires { Suits (map W.number k.now) }
    ensures { words_of W.number result
        ≡ lent.hash_blocks (map W.number k.now) W.sha2 (words_of W.number h) s.now }
{
    let mut c = h;
    for block in s.chunks_exact(W::BLOCK) {
        c = compress::<W, R, N>(c, block, k);
    }
    c
}
