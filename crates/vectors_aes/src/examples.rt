// The examples of FIPS 197 and SP 800-38A.
use aes::RoundKeys;
use std::io;

// FIPS 197, C.3: a block and back.
pub fn block(rt: &impl Print) -> io::Result<()> {
    let keys = RoundKeys::expand(
        *b"\x00\x01\x02\x03\x04\x05\x06\x07\x08\x09\x0a\x0b\x0c\x0d\x0e\x0f\x10\x11\x12\x13\x14\x15\x16\x17\x18\x19\x1a\x1b\x1c\x1d\x1e\x1f",
    );
    let c = aes::encrypt(
        keys,
        *b"\x00\x11\x22\x33\x44\x55\x66\x77\x88\x99\xaa\xbb\xcc\xdd\xee\xff",
    );
    let p = aes::decrypt(keys, c);
    vectors::row(rt, b"aes256", b"C.3", 16, 0, &c)?;
    vectors::row(rt, b"aes256", b"C.3-inverse", 16, 0, &p)
}

// FIPS 197, A.3: the 60 words of a key schedule.
pub fn key_expansion(rt: &impl Print) -> io::Result<()> {
    let words = key().words;
    let mut out = [0u8; 240];
    serialize(&words, &mut out);
    vectors::row(rt, b"aes256", b"A.3", 32, 0, &out)
}

// The key of FIPS 197, A.3, which is that of SP 800-38A too.
fn key() -> RoundKeys {
    RoundKeys::expand(
        *b"\x60\x3d\xeb\x10\x15\xca\x71\xbe\x2b\x73\xae\xf0\x85\x7d\x77\x81\x1f\x35\x2c\x07\x3b\x61\x08\xd7\x2d\x98\x10\xa3\x09\x14\xdf\xf4",
    )
}

// Words one after the other, the first byte of each the most significant, as many as `out` has room for.
fn serialize(words: &[u32], out: &mut [u8]) {
    for (bytes, word) in out.chunks_exact_mut(4).zip(words) {
        bytes.copy_from_slice(&word.to_be_bytes());
    }
}

// SP 800-38A, F.2.5 and F.2.6: four blocks in CBC mode and back.
pub fn modes(rt: &impl Print) -> io::Result<()> {
    let iv = *b"\x00\x01\x02\x03\x04\x05\x06\x07\x08\x09\x0a\x0b\x0c\x0d\x0e\x0f";
    let mut text =
        *b"\x6b\xc1\xbe\xe2\x2e\x40\x9f\x96\xe9\x3d\x7e\x11\x73\x93\x17\x2a\xae\x2d\x8a\x57\x1e\x03\xac\x9c\x9e\xb7\x6f\xac\x45\xaf\x8e\x51\x30\xc8\x1c\x46\xa3\x5c\xe4\x11\xe5\xfb\xc1\x19\x1a\x0a\x52\xef\xf6\x9f\x24\x45\xdf\x4f\x9b\x17\xad\x2b\x41\x7b\xe6\x6c\x37\x10";
    aes_cbc::encrypt_cbc(key(), iv, &mut text);
    vectors::row(rt, b"aes256-cbc", b"F.2.5", 64, 0, &text)?;
    aes_cbc::decrypt_cbc(key(), iv, &mut text);
    vectors::row(rt, b"aes256-cbc", b"F.2.6", 64, 0, &text)
}
