// FIPS 180-4, 6.2.2 and 6.4.2: the rounds on the eight working variables, and the words of the message schedule.
ghost use Rattle.std.specs.Prelude.{◌≡◌, ◌+◌, ◌%◌, ◌≤◌, length, map};
ghost use Rattle.fips180.specs.Fips180 as fips180;
ghost use Rattle.fips180.specs.Unrolled.{four_rounds};
ghost use Rattle.fips180.specs.Working.{words as words_of};

use crate::word::Word;

// T1 of step 3.
fn t1<W: Word>(e: W, f: W, g: W, h: W, k: W, w: W) -> W
    ensures { W.number result ≡ fips180.t1 W.sha2 (W.number e) (W.number f) (W.number g) (W.number h) (W.number k) (W.number w) }
{
    h.plus(e.big_sigma1()).plus(e.ch(f, g)).plus(k).plus(w)
}

// T2 of step 3.
fn t2<W: Word>(a: W, b: W, c: W) -> W
    ensures { W.number result ≡ fips180.t2 W.sha2 (W.number a) (W.number b) (W.number c) }
{
    a.big_sigma0().plus(a.maj(b, c))
}

// A word of the message schedule, from the four words that it is made of (step 1).
pub(crate) fn next_word<W: Word>(w2: W, w7: W, w15: W, w16: W) -> W
    ensures { W.number result ≡ fips180.next_word W.sha2 (W.number w2) (W.number w7) (W.number w15) (W.number w16) }
{
    w2.small_sigma1()
        .plus(w7)
        .plus(w15.small_sigma0())
        .plus(w16)
}

// The eight working variables (step 2).
#[derive(Clone, Copy)]
pub struct Working<W> {
    pub a: W,
    pub b: W,
    pub c: W,
    pub d: W,
    pub e: W,
    pub f: W,
    pub g: W,
    pub h: W,
}

impl<W: Word> Working<W> {
    // The variables of a hash value.
    pub fn of(h: [W; 8]) -> Self
        ensures { words_of W.number result ≡ map W.number h }
    {
        Working {
            a: h[0],
            b: h[1],
            c: h[2],
            d: h[3],
            e: h[4],
            f: h[5],
            g: h[6],
            h: h[7],
        }
    }

    // And the hash value of the variables.
    pub fn words(self) -> [W; 8]
        ensures { map W.number result ≡ words_of W.number self }
    {
        [
            self.a, self.b, self.c, self.d, self.e, self.f, self.g, self.h,
        ]
    }
}

// One round (step 3).
fn round<W: Word>(s: Working<W>, k: W, w: W) -> Working<W>
    ensures { words_of W.number result ≡ fips180.round W.sha2 (words_of W.number s) (W.number k) (W.number w) }
{
    let x = t1(s.e, s.f, s.g, s.h, k, w);
    Working {
        a: x.plus(t2(s.a, s.b, s.c)),
        b: s.a,
        c: s.b,
        d: s.c,
        e: s.d.plus(x),
        f: s.e,
        g: s.f,
        h: s.g,
    }
}

// Rounds j to j + 3: unrolled, so that the working variables need not be moved after each.
fn four_rounds<W: Word>(s: Working<W>, w: &[W], k: &[W], j: usize) -> Working<W>
    requires in_w { j + 4 ≤ length w.now }
    requires in_k { j + 4 ≤ length k.now }
    ensures { words_of W.number result ≡ four_rounds W.sha2 (map W.number k.now) (map W.number w.now) j (words_of W.number s) }
{
    let t = round(s, k[j], w[j]);
    let u = round(t, k[j + 1], w[j + 1]);
    let v = round(u, k[j + 2], w[j + 2]);
    round(v, k[j + 3], w[j + 3])
}

// All the rounds: so many as there are constants.
pub(crate) fn rounds<W: Word>(s: Working<W>, w: &[W], k: &[W]) -> Working<W>
    requires fours { length k.now % 4 ≡ 0 }
    requires in_w { length k.now ≤ length w.now }
    ensures { words_of W.number result ≡ fips180.rounds W.sha2 (map W.number k.now) (map W.number w.now) (length k.now) (words_of W.number s) }
{
    let mut t = s;
    for i in 0..k.len() / 4 {
        t = four_rounds(t, w, k, i * 4);
    }
    t
}
