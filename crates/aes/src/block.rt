// A block as the words of its four columns.
ghost use Rattle.std.specs.Prelude.{◌≡◌};
ghost use Rattle.words.specs.Xor.{xors};
ghost use Rattle.aes.specs.Columns.{columns};

// Four columns, the first byte of each the most significant.
#[derive(Clone, Copy)]
pub struct Columns {
    pub a: u32,
    pub b: u32,
    pub c: u32,
    pub d: u32,
}

// The columns of a block.
pub fn load(s: [u8; 16]) -> Columns
    ensures { columns result ≡ s }
{
    Columns {
        a: words::be::u32_of(s[0], s[1], s[2], s[3]),
        b: words::be::u32_of(s[4], s[5], s[6], s[7]),
        c: words::be::u32_of(s[8], s[9], s[10], s[11]),
        d: words::be::u32_of(s[12], s[13], s[14], s[15]),
    }
}

// The block of four columns.
pub fn store(x: Columns) -> [u8; 16]
    ensures { result ≡ columns x }
{
    let [a0, a1, a2, a3] = x.a.to_be_bytes();
    let [b0, b1, b2, b3] = x.b.to_be_bytes();
    let [c0, c1, c2, c3] = x.c.to_be_bytes();
    let [d0, d1, d2, d3] = x.d.to_be_bytes();
    [
        a0, a1, a2, a3, b0, b1, b2, b3, c0, c1, c2, c3, d0, d1, d2, d3,
    ]
}

// The exclusive or of two blocks.
pub fn xor(x: Columns, y: Columns) -> Columns
    ensures { columns result ≡ xors (columns x) (columns y) }
{
    Columns {
        a: x.a ^ y.a,
        b: x.b ^ y.b,
        c: x.c ^ y.c,
        d: x.d ^ y.d,
    }
}
