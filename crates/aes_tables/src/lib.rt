// The tables of AES, and what a round looks up in them.
//
// A round of FIPS 197 takes each byte through the S-box and adds its products to a column. A table of 256 words has,
// for each byte, its four products at once (te for the cipher, td for the equivalent inverse cipher of 5.3.5), so that
// a column is four look-ups. Only the S-box is a constant; the other tables are built from it in memory, for each use,
// and lent. The contracts cite specs/Tables. A look-up is told for any table: that a table is te or td is what building
// it promises. Table look-ups are not constant-time: the places looked up depend on the key.
#![tactic(auto)]

ghost use Rattle.std.specs.Prelude.{◌≡◌};
ghost use Rattle.gf256.specs.Gf256 as gf256;
ghost use Rattle.fips197.specs.Fips197.{byte_of};
ghost use Rattle.fips197.specs.HasBytes.{HasBytes};
ghost use Rattle.aes_tables.specs.Tables as tables;

mod tables;

use tables::SBOX;

// The product of a byte with {02}.
fn times2(b: u8) -> u8
    ensures { result ≡ gf256.gmul 2 b }
{
    ((b % 128) * 2) ^ ((b / 128) * 0x1b)
}

// The word of a byte in the table of the cipher, from its value in the S-box.
fn mix_entry(s: u8) -> u32
    ensures { result ≡ tables.mix_entry s }
{
    let d = times2(s);
    words::be::u32_of(d, s, s, d ^ s)
}

// The table of the cipher: SubBytes() and MixColumns().
pub fn te() -> [u32; 256]
    ensures { result ≡ tables.te }
{
    // Not `SBOX.map(..)`: its code takes some 15,000 instructions, the loop's 1,000.
    let s = SBOX;
    let mut t = [0u32; 256];
    for i in 0..256 {
        t[i] = mix_entry(s[i]);
    }
    t
}

// The inverse S-box: at each value of the S-box, its place.
pub fn inverse() -> [u8; 256]
    ensures { result ≡ tables.inverse }
{
    let s = SBOX;
    let mut t = [0u8; 256];
    for i in 0..256 {
        let y = s[i] as usize;
        t[y] = i as u8;
    }
    t
}

// The word of a byte in the table of the inverse cipher, from its value in the inverse S-box.
fn inv_mix_entry(b: u8) -> u32
    ensures { result ≡ tables.inv_mix_entry b }
{
    let b2 = times2(b);
    let b4 = times2(b2);
    let b8 = times2(b4);
    let b9 = b8 ^ b;
    let b12 = b8 ^ b4;
    words::be::u32_of(b12 ^ b2, b9, b12 ^ b, b9 ^ b2)
}

// The table of the inverse cipher, InvMixColumns() after the table lent; td where that is the inverse S-box.
pub fn td(inverse: &[u8; 256]) -> [u32; 256]
    ensures { result ≡ tables.mixed inverse.now }
{
    let mut t = [0u32; 256];
    for i in 0..256 {
        t[i] = inv_mix_entry(inverse[i]);
    }
    t
}

// A word with its bytes moved by one place, the last one to the front.
fn rotr8(w: u32) -> u32
    ensures { HasBytes result (byte_of w 3) (byte_of w 0) (byte_of w 1) (byte_of w 2) }
{
    (w % 0x100) * 0x100_0000 + w / 0x100
}

// A column of a round: the entries of four bytes, each moved to its row, added to each other and to a word of the round
// key.
pub fn column(t: &[u32; 256], a: u32, b: u32, c: u32, d: u32, k: u32) -> u32
    ensures { tables.IsColumn t.now a b c d k result }
{
    let e = t[(a / 0x100_0000 % 256) as usize];
    let f = t[(b / 0x1_0000 % 256) as usize];
    let g = t[(c / 0x100 % 256) as usize];
    let h = t[(d % 256) as usize];
    e ^ rotr8(f ^ rotr8(g ^ rotr8(h))) ^ k
}

// Byte 1 of a word.
fn byte1(w: u32) -> u8
    ensures { result ≡ byte_of w 1 }
{
    (w / 0x1_0000 % 256) as u8
}

// A column of the last round, before the round key is added: byte 1 of each entry, which in te is the S-box.
pub fn sub_column(t: &[u32; 256], a: u32, b: u32, c: u32, d: u32) -> u32
    ensures { result ≡ tables.sub_column t.now a b c d }
{
    let e = t[(a / 0x100_0000 % 256) as usize];
    let f = t[(b / 0x1_0000 % 256) as usize];
    let g = t[(c / 0x100 % 256) as usize];
    let h = t[(d % 256) as usize];
    words::be::u32_of(byte1(e), byte1(f), byte1(g), byte1(h))
}

// The same of the inverse cipher, where the entries are those of the inverse S-box.
pub fn inv_sub_column(t: &[u8; 256], a: u32, b: u32, c: u32, d: u32) -> u32
    ensures { result ≡ tables.inv_sub_column t.now a b c d }
{
    let e = t[(a / 0x100_0000 % 256) as usize];
    let f = t[(b / 0x1_0000 % 256) as usize];
    let g = t[(c / 0x100 % 256) as usize];
    let h = t[(d % 256) as usize];
    words::be::u32_of(e, f, g, h)
}
