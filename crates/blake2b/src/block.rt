// RFC 7693, 3.2 and 3.3: the compression of one block, and of all blocks of a slice but the last, straight from it.
ghost use Rattle.std.specs.Prelude.{◌≡◌, cond, ◌+◌, ◌-◌, ◌^◌, ◌≤◌, ◌<◌, length, get_or};
ghost use Rattle.std.specs.Int.Bits.{bit_xor};
ghost use Rattle.words.specs.Endian.{le};
ghost use Rattle.fips180.specs.Fips180.Constants.{iv512};
ghost use Rattle.blake2b.specs.Rfc7693 as rfc7693;

// The number of four bytes at a place. (`words::le::u32_at` would test the length for each word.)
fn half_at(s: &[u8], at: usize) -> u32
    requires { at + 4 ≤ length s.now }
    ensures { result ≡ le 4 s.now at }
{
    words::le::u32_of(s[at], s[at + 1], s[at + 2], s[at + 3])
}

// The word of eight bytes at a place: in two halves, each of which compiles to one load.
fn word_at(s: &[u8], at: usize) -> u64
    requires { at + 8 ≤ length s.now }
    ensures { result ≡ le 8 s.now at }
{
    (half_at(s, at) as u64) + (half_at(s, at + 4) as u64) * 0x1_0000_0000
}

// 2.4: the sixteen words of the block that `s` begins with.
fn load(m: &mut [u64; 16], s: &[u8])
    requires m_len { length m.old ≡ 16 }
    requires in_bounds { 128 ≤ length s.now }
    ensures { m.new ≡ rfc7693.block_words 16 s.now }
{
    for (i, word) in m.iter_mut().enumerate() {
        *word = word_at(s, i * 8);
    }
}

// 3.2: the word of the working vector that has the final block flag.
fn flagged(f: bool) -> u64
    ensures { result ≡ cond f (bit_xor (get_or iv512 6 0) (2 ^ 64 - 1)) (get_or iv512 6 0) }
{
    let iv = crate::tables::IV;
    if f {
        return iv[6] ^ 0xffff_ffff_ffff_ffff;
    }
    iv[6]
}

// 3.2: the working vector before the rounds.
fn working(h: [u64; 8], t: u64, f: bool) -> [u64; 16]
    ensures { result ≡ rfc7693.working h t f }
{
    let iv = crate::tables::IV;
    [
        h[0],
        h[1],
        h[2],
        h[3],
        h[4],
        h[5],
        h[6],
        h[7],
        iv[0],
        iv[1],
        iv[2],
        iv[3],
        iv[4] ^ t,
        iv[5],
        flagged(f),
        iv[7],
    ]
}

// 3.2: the next h, of the working vector after the rounds.
fn joined(h: [u64; 8], v: [u64; 16]) -> [u64; 8]
    ensures { result ≡ rfc7693.joined h v }
{
    [
        h[0] ^ v[0] ^ v[8],
        h[1] ^ v[1] ^ v[9],
        h[2] ^ v[2] ^ v[10],
        h[3] ^ v[3] ^ v[11],
        h[4] ^ v[4] ^ v[12],
        h[5] ^ v[5] ^ v[13],
        h[6] ^ v[6] ^ v[14],
        h[7] ^ v[7] ^ v[15],
    ]
}

// 3.2: F on the block that `s` begins with.
pub(crate) fn compress(h: [u64; 8], s: &[u8], t: u64, f: bool) -> [u64; 8]
    requires in_bounds { 128 ≤ length s.now }
    ensures { result ≡ rfc7693.compression_f h s.now t f }
{
    let mut m = [0u64; 16];
    load(&mut m, s);
    let mut v = working(h, t, f);
    crate::mixing::rounds(&mut v, &m);
    joined(h, v)
}

// 3.3: h after every block of `s` but the last, `t` bytes having come before.
pub(crate) fn blocks(h: [u64; 8], s: &[u8], t: usize) -> [u64; 8]
    requires s_bound { t + length s.now < 2 ^ 32 }
    ensures { result ≡ rfc7693.chain (rfc7693.blocks_before (length s.now)) h t s.now }
{
    let mut c = h;
    for i in 0..crate::blocks_before(s.len()) {
        let at = 128 * i;
        let d = compress(c, &s[at..], (t + at + 128) as u64, false);
        c = d;
    }
    c
}
