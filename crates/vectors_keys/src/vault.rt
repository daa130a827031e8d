// The rows of a vault.
use crate::credentials::{Credential, composite, pre_hash};
use std::io;
use vectors::table::{array, field, is_given};

// All keys of the vault of a line.
pub fn keys_of(rt: &impl Print, line: &[u8]) -> io::Result<()> {
    let name = field(line, 0);
    let mut password = [0u8; 64];
    let mut key_file = [0u8; 64];
    let p = vectors::table::bytes(field(line, 1), &mut password);
    let k = vectors::table::bytes(field(line, 2), &mut key_file);
    let key = composite(
        rt,
        name,
        Credential::new(vectors::first(&password, p), is_given(field(line, 1))),
        Credential::new(vectors::first(&key_file, k), is_given(field(line, 2))),
    )?;
    pre_hash(rt, name, &key)?;
    if is_given(field(line, 4)) {
        transformed(rt, name, array(field(line, 3)), array(field(line, 4)))?;
    }
    Ok(())
}

// The keys that follow from the master seed and the transformed key.
fn transformed(rt: &impl Print, name: &[u8], seed: [u8; 32], t: [u8; 32]) -> io::Result<()> {
    let c = keys::cipher_key(seed, t);
    vectors::row(rt, b"cipher-key", name, 64, 0, &c)?;
    let base = keys::tag_base(seed, t);
    vectors::row(rt, b"tag-base", name, 65, 0, &base)?;
    for (what, i) in [
        ("tag-key-0", 0),
        ("tag-key-1", 1),
        ("tag-key-2^32", 0x1_0000_0000),
        ("tag-key-2^64-1", u64::MAX),
    ] {
        vectors::row(rt, what.as_bytes(), name, 72, 0, &keys::tag_key(i, base))?;
    }
    Ok(())
}
