// Pseudo-random keys and blocks.
use aes::RoundKeys;
use std::io;

// A thousand keys, each with a block that is encrypted and one that is decrypted.
pub fn random_blocks(rt: &impl Print) -> io::Result<()> {
    let mut state: u64 = 1;
    for _ in 0..1_000 {
        state = random_block(rt, state)?;
    }
    Ok(())
}

// A key, a block that is encrypted and one that is decrypted, and the generator's state behind them.
fn random_block(rt: &impl Print, state: u64) -> io::Result<u64> {
    let mut key = [0u8; 32];
    let mut p = [0u8; 16];
    let mut c = [0u8; 16];
    let x = vectors::random(state, &mut key);
    let y = vectors::random(x, &mut p);
    let z = vectors::random(y, &mut c);
    let keys = RoundKeys::expand(key);
    let encrypted = aes::encrypt(keys, p);
    let decrypted = aes::decrypt(keys, c);
    vectors::row(rt, b"aes256", b"encrypt", 16, 0, &encrypted)?;
    vectors::row(rt, b"aes256", b"decrypt", 16, 0, &decrypted)?;
    Ok(z)
}

// One block, encrypted again and again.
pub fn repeated_blocks(rt: &impl Print) -> io::Result<()> {
    for (form, n) in [
        ("repeated-0", 0),
        ("repeated-1", 1),
        ("repeated-2", 2),
        ("repeated-1000", 1_000),
        ("repeated-65537", 65_537),
    ] {
        repeated(rt, form.as_bytes(), n)?;
    }
    Ok(())
}

// A block by rule, encrypted n times under a key by rule.
fn repeated(rt: &impl Print, form: &[u8], n: u32) -> io::Result<()> {
    let mut key = [0u8; 32];
    let mut block = [0u8; 16];
    vectors::pattern(&mut key);
    vectors::random(0, &mut block);
    let c = aes::encrypt_repeated(RoundKeys::expand(key), block, n);
    vectors::row(rt, b"aes256", form, 16, 0, &c)
}
