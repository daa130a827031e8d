// The KDF dictionaries that are written (document 01: KDF items `$UUID`, `R`, `S`; document 02, Item 6: Argon2's items
// `$UUID`, `I`, `M`, `P`, `S`, `V`). The contracts cite specs/Kdf. Nothing is refused.
ghost use Rattle.std.specs.Prelude.{◌≡◌, ◌+◌, ◌≤◌, length, take};
ghost use Rattle.words.specs.Endian.{le_bytes};
ghost use Rattle.slices.specs.Over.{laid, put_at};
ghost use Rattle.dictionary.specs.Dictionary.{item_bytes};
ghost use Rattle.kdf_dictionary.specs.Kdf as kdf;

use crate::{AES_KDF, ARGON2D, ARGON2ID};

// The figures of a KDF that is written. Its seed or salt stands beside them.
#[derive(Clone, Copy)]
pub enum Figures {
    AesKdf {
        rounds: u64,
    },
    Argon2d {
        passes: u64,
        memory: u64,
        lanes: u32,
    },
    Argon2id {
        passes: u64,
        memory: u64,
        lanes: u32,
    },
}

// How many bytes the dictionary with a seed or salt has. Of a seed or salt 64 bytes are looked at.
pub fn kdf_len(figures: Figures, salt: &[u8]) -> usize
    ensures { result ≡ kdf.kdf_length figures (length (take 64 salt.now)) }
{
    let s = slices::part(salt, 0, 64);
    match figures {
        Figures::AesKdf { rounds: _ } => return 61 + s.len(),
        Figures::Argon2d {
            passes: _,
            memory: _,
            lanes: _,
        } => return 107 + s.len(),
        Figures::Argon2id {
            passes: _,
            memory: _,
            lanes: _,
        } => return 107 + s.len(),
    }
}

// Lays an item from a place on.
fn put_item(out: &mut [u8], at: usize, kind: u8, name: &[u8], value: &[u8])
    requires { at + length name.now ≤ 200 }
    ensures { out.new ≡ put_at at (item_bytes kind name.now value.now) out.old }
{
    let size = words::le::bytes64(value.len() as u64);
    let head = [size[0], size[1], size[2], size[3]];
    let n = at + 5 + name.len();
    fields::put(out, at, kind, name);
    slices::put(out, n, &head);
    slices::put(out, n + 4, value);
}

// Lays the version and the identifier: 32 bytes.
fn write_front(id: [u8; 16], out: &mut [u8])
    ensures { out.new ≡ laid (kdf.front_bytes id) out.old }
{
    let version = [0u8, 1];
    slices::put(out, 0, &version);
    put_item(out, 2, 0x42, b"$UUID", &id);
}

// Lays the dictionary of AES-KDF.
fn write_aes_kdf(rounds: u64, seed: &[u8], out: &mut [u8])
    requires { length seed.now ≤ 64 }
    ensures { out.new ≡ laid (kdf.aes_kdf_bytes seed.now rounds) out.old }
{
    let r = words::le::bytes64(rounds);
    let end = [0u8];
    write_front(AES_KDF, out);
    put_item(out, 32, 0x05, b"R", &r);
    put_item(out, 50, 0x42, b"S", seed);
    slices::put(out, 60 + seed.len(), &end);
}

// Lays Argon2's dictionary up to the lanes: 82 bytes.
fn write_costs(id: [u8; 16], passes: u64, memory: u64, lanes: u32, out: &mut [u8])
    ensures { out.new ≡ laid (kdf.cost_bytes id passes memory lanes) out.old }
{
    let i = words::le::bytes64(passes);
    let m = words::le::bytes64(memory);
    let p = words::le::bytes32(lanes);
    write_front(id, out);
    put_item(out, 32, 0x05, b"I", &i);
    put_item(out, 50, 0x05, b"M", &m);
    put_item(out, 68, 0x04, b"P", &p);
}

// Lays the dictionary of a form of Argon2.
fn write_argon2(id: [u8; 16], passes: u64, memory: u64, lanes: u32, salt: &[u8], out: &mut [u8])
    requires { length salt.now ≤ 64 }
    ensures { out.new ≡ laid (kdf.argon2_bytes id salt.now passes memory lanes) out.old }
{
    let v = [0x13u8, 0, 0, 0];
    let end = [0u8];
    let n = salt.len();
    write_costs(id, passes, memory, lanes, out);
    put_item(out, 82, 0x42, b"S", salt);
    put_item(out, 92 + n, 0x04, b"V", &v);
    slices::put(out, 106 + n, &end);
}

// Lays the dictionary of a KDF at the front of `out`, as far as there is room. A seed or salt has at most 64 bytes; more
// are not looked at.
pub fn write_kdf(figures: Figures, salt: &[u8], out: &mut [u8])
    ensures { out.new ≡ laid (kdf.kdf_bytes figures (take 64 salt.now)) out.old }
{
    let s = slices::part(salt, 0, 64);
    match figures {
        Figures::AesKdf { rounds } => write_aes_kdf(rounds, s, out),
        Figures::Argon2d {
            passes,
            memory,
            lanes,
        } => write_argon2(ARGON2D, passes, memory, lanes, s, out),
        Figures::Argon2id {
            passes,
            memory,
            lanes,
        } => write_argon2(ARGON2ID, passes, memory, lanes, s, out),
    }
}
