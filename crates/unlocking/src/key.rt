// T of a composite key, by the KDF of an accepted header, and the words of memory that it needs.
//
// The contracts cite specs/Unlocking. AES-KDF's rounds run by helpings, with the share that is done on standard error
// (rounds); before a run of Argon2, which has no helpings, its memory and passes stand there.
ghost use Rattle.std.specs.Prelude.{◌≡◌, true, ◌≤◌, length, Ok};
ghost use Rattle.refusals.specs.Limits.{rounds_limit, argon2_fits};
ghost use Rattle.fields.specs.Fields.{bytes_at};
ghost use Rattle.aes_kdf.specs.AesKdf as kdf;
ghost use Rattle.outer_header.specs.Kdbx4Header.{header};
ghost use Rattle.unlocking.specs.Unlocking as unlocking;

use argon2::{Kind, Transformed};
use kdf_dictionary::{AesKdf, Argon2, Kdf};
use outer_header::Header;

// T by AES-KDF.
fn by_rounds(rt: &impl Eprint, f: &[u8], k: AesKdf, composite: [u8; 32]) -> [u8; 32]
    requires seed_len { length (bytes_at f.now k.seed) ≡ 32 }
    requires rounds_le_rounds_limit { k.rounds ≤ rounds_limit }
    ensures { result ≡ kdf.transformed_key composite (bytes_at f.now k.seed) k.rounds }
{
    let mut seed = [0u8; 32];
    slices::copy(&mut seed, slices::part(f, k.seed.start, k.seed.length));
    crate::rounds::transform(rt, composite, seed, k.rounds)
}

// The memory, in KiB, and the passes of a run of Argon2, as a line.
fn announce(rt: &impl Eprint, a: Argon2) {
    let memory = a.memory / 1024;
    let passes = a.passes;
    let _ = eprintln!(rt; "Argon2: memory {memory} KiB, passes {passes}");
}

// T by Argon2, in lent memory.
fn by_argon2(
    rt: &impl Eprint,
    f: &[u8],
    kind: Kind,
    a: Argon2,
    composite: [u8; 32],
    memory: &mut [u64],
) -> Transformed
    ensures value { result ≡ unlocking.argon2_key kind a composite f.now (length memory.old) }
    ensures memory_after { memory.new ≡ unlocking.argon2_left kind a composite f.now memory.old }
{
    announce(rt, a);
    argon2::transform(
        kind,
        composite,
        slices::part(f, a.salt.start, a.salt.length),
        a.passes,
        a.memory,
        a.lanes,
        memory,
    )
}

// T of a composite key and an accepted header.
pub(crate) fn key_of(
    rt: &impl Eprint,
    f: &[u8],
    h: Header,
    composite: [u8; 32],
    memory: &mut [u64],
) -> Transformed
    requires { header f.now ≡ Ok h }
    ensures value { result ≡ unlocking.key_of h.kdf composite f.now (length memory.old) }
    ensures memory_after { memory.new ≡ unlocking.memory_after h.kdf composite f.now memory.old }
{
    let kdf = h.kdf;
    match kdf {
        Kdf::AesKdf(k) => {
            let key = by_rounds(rt, f, k, composite);
            return Transformed {
                outcome: Ok(()),
                key,
            };
        }
        Kdf::Argon2d(a) => return by_argon2(rt, f, Kind::Argon2d, a, composite, memory),
        Kdf::Argon2id(a) => return by_argon2(rt, f, Kind::Argon2id, a, composite, memory),
    }
}

// The words of memory that Argon2 needs.
fn argon2_words(a: Argon2) -> usize
    requires { argon2_fits a.salt.length a.passes a.memory a.lanes ≡ true }
    ensures { result ≡ unlocking.argon2_words a }
{
    let m = (a.memory / 1024) as usize;
    let p = a.lanes as usize;
    p * (4 * (m / (4 * p))) * 128
}

// The words of memory that T needs by the KDF of an accepted header.
pub(crate) fn words_of(f: &[u8], h: Header) -> usize
    requires { header f.now ≡ Ok h }
    ensures { result ≡ unlocking.words_of h.kdf }
{
    let kdf = h.kdf;
    match kdf {
        Kdf::AesKdf(_) => return 0,
        Kdf::Argon2d(a) => return argon2_words(a),
        Kdf::Argon2id(a) => return argon2_words(a),
    }
}
