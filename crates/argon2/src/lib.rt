// Argon2d and Argon2id (RFC 9106), version 0x13, in lent memory; and the key transformation of a vault by them
// (document 02, Item 6).
//
//   H_0 | first two blocks of each lane | filling | last column | tag | memory cleared
//
// The contracts cite specs/Rfc9106 and specs/Run. Refusals, in order: 22 for a figure outside, 1 for a message of H_0
// over the limit of a hash's message (no vault has one), 17 for fewer words than the blocks have. A refusal changes
// nothing; a run leaves the words that it used as zeros and those behind them as they were. The lanes are computed one
// after the other. Argon2d, and Argon2id behind its first half pass, look at places that depend on the password.
#![tactic(auto)]

ghost use Rattle.std.specs.Prelude.{◌≡◌, ◌*◌, ◌/◌, ◌≤◌, length, replicate};
ghost use Rattle.argon2_fill.specs.Rfc9106 as filling;
ghost use Rattle.argon2_fill.specs.State.{figures, Fits};
ghost use Rattle.argon2.specs.Rfc9106 as rfc9106;
ghost use Rattle.argon2.specs.Run as run;

use argon2_fill::Figures;
use refusals::Refusal;

mod first;
mod last;
mod prehash;

// The type of Argon2.
#[derive(Clone, Copy)]
pub enum Kind {
    Argon2d,
    Argon2id,
}

// The transformed key T: zeros where it is refused.
#[derive(Clone, Copy)]
pub struct Transformed {
    pub outcome: Result<(), Refusal>,
    pub key: [u8; 32],
}

// 3.1: the type's number y.
fn number_of(kind: Kind) -> u32
    ensures { result ≡ run.number_of kind }
{
    match kind {
        Kind::Argon2d => 0,
        Kind::Argon2id => 2,
    }
}

// M in KiB, rounded down.
fn kib_of(bytes: u64) -> usize
    ensures { result ≡ bytes / 1024 }
{
    (bytes / 1024) as usize
}

// 3.2, steps 3 to 8: the tag of H_0 over `out`, in a memory that has the blocks and no more, which is left as zeros.
fn fill_tag(memory: &mut [u64], f: Figures, h: [u8; 64], out: &mut [u8])
    requires fits { Fits (figures f) }
    requires le_passes { 1 ≤ f.passes }
    requires memory_len { length memory.old ≡ filling.blocks (figures f) * 128 }
    ensures memory_after { memory.new ≡ replicate (length memory.old) 0 }
    ensures out_after { out.new ≡ rfc9106.tag_of (figures f) h (length out.old) }
{
    first::put_first_blocks(memory, f, h);
    argon2_fill::fill(memory, f);
    let c = last::bytes_of(last::last_column(memory, f));
    let _ = argon2_hash::fill(&c, out);
    memory.fill(0);
}

// 3.2: the tag of the inputs over `out`, as long as that is. `bytes` is the memory to use, M, in bytes.
pub fn hash(
    kind: Kind,
    password: &[u8],
    salt: &[u8],
    secret: &[u8],
    associated: &[u8],
    passes: u64,
    bytes: u64,
    lanes: u32,
    memory: &mut [u64],
    out: &mut [u8],
) -> Result<(), Refusal>
    ensures value { result ≡ run.outcome (run.inputs kind password.now salt.now secret.now associated.now passes bytes lanes (length out.old)) bytes (length memory.old) }
    ensures memory_after { memory.new ≡ run.left result (run.inputs kind password.now salt.now secret.now associated.now passes bytes lanes (length out.old)) memory.old }
    ensures out_after { out.new ≡ run.shown result (run.inputs kind password.now salt.now secret.now associated.now passes bytes lanes (length out.old)) out.old }
{
    if !refusals::limits::argon2_figures_fit(salt.len(), passes, bytes, lanes) {
        return Err(Refusal::FigureOutside(0));
    }
    if !prehash::fits(password.len(), salt.len(), secret.len(), associated.len()) {
        return Err(Refusal::TooLong);
    }
    let m = kib_of(bytes);
    let y = number_of(kind);
    let segment = m / (4 * (lanes as usize));
    let f = Figures {
        lanes: lanes as usize,
        segment,
        passes: passes as usize,
        kind: y as usize,
    };
    let blocks = f.lanes * (4 * f.segment);
    let words = blocks * 128;
    if memory.len() < words {
        return Err(Refusal::NoRoom);
    }
    let h = prehash::h0(
        y,
        lanes,
        out.len(),
        m as u32,
        passes as u32,
        password,
        salt,
        secret,
        associated,
    );
    fill_tag(&mut memory[..words], f, h, out);
    Ok(())
}

// T of a vault's composite key: salt S, passes I, memory M in bytes, lanes P.
pub fn transform(
    kind: Kind,
    composite: [u8; 32],
    salt: &[u8],
    passes: u64,
    bytes: u64,
    lanes: u32,
    memory: &mut [u64],
) -> Transformed
    ensures value { result ≡ run.transformed (run.outcome (run.vault_inputs kind composite salt.now passes bytes lanes) bytes (length memory.old)) (run.vault_inputs kind composite salt.now passes bytes lanes) }
    ensures memory_after { memory.new ≡ run.left (run.outcome (run.vault_inputs kind composite salt.now passes bytes lanes) bytes (length memory.old)) (run.vault_inputs kind composite salt.now passes bytes lanes) memory.old }
{
    let none = [0u8; 0];
    let mut key = [0u8; 32];
    let outcome = hash(
        kind, &composite, salt, &none, &none, passes, bytes, lanes, memory, &mut key,
    );
    Transformed { outcome, key }
}
