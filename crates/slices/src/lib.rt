// Slices of bytes: copying into a lent one, comparing two, a part of one, zeroing; and the lesser of two lengths.
//
// The contracts cite specs/Over (what stands in a lent slice after a writing), specs/Same and specs/Stretch (where a
// part of a slice lies). Every function answers every input: a copy takes as many bytes as there is room for, and
// slices of two lengths differ.
#![tactic(auto)]

ghost use Rattle.std.specs.Prelude.{◌≡◌, min, length, take, drop, replicate};
ghost use Rattle.slices.specs.Over.{over, put_at};
ghost use Rattle.slices.specs.Same.{same as same_lists};
ghost use Rattle.slices.specs.Stretch.{Stretch};

// The lesser of two numbers.
pub fn least(a: usize, b: usize) -> usize
    ensures { result ≡ min a b }
{
    a.min(b)
}

// Copies the bytes of `s` over the front of `out`, as many as there is room for.
pub fn copy(out: &mut [u8], s: &[u8])
    ensures { out.new ≡ over (take (length out.old) s.now) out.old }
{
    let n = out.len().min(s.len());
    // Not copy_from_slice: of two lent slices it is a call of memmove, which no archive for C had to find before.
    for i in 0..n {
        out[i] = s[i];
    }
}

// Copies the bytes of `s` into `out` from a place on, as many as there is room for.
pub fn put(out: &mut [u8], at: usize, s: &[u8])
    ensures { out.new ≡ put_at at s.now out.old }
{
    if at < out.len() {
        copy(&mut out[at..], s);
    }
}

// Whether two slices are equal. Every byte is looked at, whichever of them differ: only the lengths tell in the time
// taken.
pub fn same(a: &[u8], b: &[u8]) -> bool
    ensures { result ≡ same_lists a.now b.now }
{
    if a.len() != b.len() {
        return false;
    }
    let mut d: u8 = 0;
    for (x, y) in a.iter().zip(b) {
        d |= *x ^ *y;
    }
    d == 0
}

// So many bytes from a place on, as many of them as there are: a stretch of the slice itself, not a copy elsewhere.
pub fn stretch(s: &[u8], start: usize, len: usize) -> &[u8]
    ensures { Stretch s.entry start len result }
{
    let from = start.min(s.len());
    let to = from + len.min(s.len() - from);
    &s[from..to]
}

// The same, for callers that lean on its bytes alone.
pub fn part(s: &[u8], start: usize, len: usize) -> &[u8]
    ensures { result.now ≡ take len (drop start s.now) }
{
    stretch(s, start, len)
}

// Sets every byte to zero.
pub fn zero(out: &mut [u8])
    ensures { out.new ≡ replicate (length out.old) 0 }
{
    out.fill(0);
}
