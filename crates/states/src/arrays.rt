// Words and arrays at a place of a slice of bytes: written there, and read from there.
//
// The contracts cite specs/Words and slices' Over. Callers lend enough room, and read within the bytes.
ghost use Rattle.std.specs.Prelude.{◌≡◌, ◌+◌, ◌*◌, ◌≤◌, length, take, drop};
ghost use Rattle.slices.specs.Over.{put_at};
ghost use Rattle.states.specs.Words.{word_bytes, words_at};

// Writes words of four bytes, one behind the other, from a place on.
pub(crate) fn put_words32(out: &mut [u8], at: usize, w: &[u32])
    requires { at + length w.now * 4 ≤ length out.old }
    ensures { out.new ≡ put_at at (word_bytes 4 w.now) out.old }
{
    for (i, x) in w.iter().enumerate() {
        slices::put(out, at + i * 4, &words::le::bytes32(*x));
    }
}

// Writes words of eight bytes, one behind the other, from a place on.
pub(crate) fn put_words64(out: &mut [u8], at: usize, w: &[u64])
    requires { at + length w.now * 8 ≤ length out.old }
    ensures { out.new ≡ put_at at (word_bytes 8 w.now) out.old }
{
    for (i, x) in w.iter().enumerate() {
        slices::put(out, at + i * 8, &words::le::bytes64(*x));
    }
}

// Fills `w` with the words of four bytes from a place on.
pub(crate) fn read_words32(w: &mut [u32], s: &[u8], at: usize)
    requires { at + length w.old * 4 ≤ length s.now }
    ensures { w.new ≡ words_at 4 (length w.old) s.now at }
{
    for (i, x) in w.iter_mut().enumerate() {
        *x = words::le::u32_at(s, at + i * 4);
    }
}

// Fills `w` with the words of eight bytes from a place on.
pub(crate) fn read_words64(w: &mut [u64], s: &[u8], at: usize)
    requires { at + length w.old * 8 ≤ length s.now }
    ensures { w.new ≡ words_at 8 (length w.old) s.now at }
{
    for (i, x) in w.iter_mut().enumerate() {
        *x = words::le::u64_at(s, at + i * 8);
    }
}

// The N bytes at a place.
pub(crate) fn array<const N: usize>(s: &[u8], at: usize) -> [u8; N]
    requires { at + N ≤ length s.now }
    ensures { result ≡ take N (drop at s.now) }
{
    let mut a = [0u8; N];
    a.copy_from_slice(&s[at..at + N]);
    a
}
