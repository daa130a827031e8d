// Vaults under the transformed key T (document 01, "File after the header"): opening whole, and block by block over a
// state that is lent as bytes; writing. The contracts cite the definitions of crates vault, opening, states, calls and
// writer. Refusals: of opening 1 to 17, 20 and 22, of the start 1 to 13, 20 and 22, of a step 19, 1, 2, 5, 14 to 17, of
// writing 4, 9, 5, 11 and 20 or 22, 10 or 6, 1, 17.
ghost use Rattle.std.specs.Prelude.{◌≡◌, length};
ghost use Rattle.refusals.specs.Numbers as numbers;
ghost use Rattle.slices.specs.Over.{over};
ghost use Rattle.opening.specs.Whole as whole;
ghost use Rattle.vault.specs.Vault as vault;
ghost use Rattle.states.specs.OpenerState as opener_states;
ghost use Rattle.writer.specs.Written as kdbx4;
ghost use Rattle.calls.specs.Calls as calls;
ghost use Rattle.exports.specs.Lent as lent;

use kdf_dictionary::writer::Figures;
use refusals::Refusal;
use states::opener_state;

// The figures of a KDF, or that its number is not listed.
#[derive(Clone, Copy)]
enum Chosen {
    Figures(Figures),
    Unlisted,
}

// Opens a vault whole under the transformed key T: the payload over the front of `out`, and its length in `count`;
// the place of a refusal in `place`.
#[unsafe(no_mangle)]
pub extern "C" fn kdbx4_open(
    file: &[u8],
    t: &[u8; 32],
    out: &mut [u8],
    count: &mut usize,
    place: &mut usize,
) -> u8
    ensures value { result ≡ numbers.number_of (whole.written_of (vault.opened_in t.now file.now (length out.old))) }
    ensures out_after { out.new ≡ over (whole.shown_of (vault.opened_in t.now file.now (length out.old))) out.old }
    ensures count_after { count.new ≡ lent.count_or (whole.written_of (vault.opened_in t.now file.now (length out.old))) count.old }
    ensures place_after { place.new ≡ numbers.place_of_answer (whole.written_of (vault.opened_in t.now file.now (length out.old))) }
{
    let key = *t;
    let answer = vault::open(file, key, out);
    *place = refusals::place(answer);
    match answer {
        Ok(n) => {
            *count = n;
            return 0;
        }
        Err(r) => return r.number(),
    }
}

// Starts a block-by-block opening: the checks up to the header's tag, and the state. A refused start gives a closed
// state.
#[unsafe(no_mangle)]
pub extern "C" fn kdbx4_start(
    file: &[u8],
    t: &[u8; 32],
    state: &mut [u8; 410],
    place: &mut usize,
) -> u8
    ensures value { result ≡ numbers.number_of (vault.outcome_of (vault.start t.now file.now)) }
    ensures place_after { place.new ≡ numbers.place_of_answer (vault.outcome_of (vault.start t.now file.now)) }
    ensures state_after { state.new ≡ opener_states.packed (vault.state_of (vault.start t.now file.now)) }
{
    let key = *t;
    let s = vault::start(file, key);
    let outcome = s.outcome;
    let next = s.next;
    *state = opener_state::pack(next);
    *place = refusals::place(outcome);
    refusals::number(outcome)
}

// Takes the next block: what it makes due over the front of `out`, and its length in `count`. 17 and 19 leave the
// state.
#[unsafe(no_mangle)]
pub extern "C" fn kdbx4_step(
    state: &mut [u8; 410],
    file: &[u8],
    out: &mut [u8],
    count: &mut usize,
) -> u8
    ensures value { result ≡ numbers.number_of (calls.stepped state.old file.now (length out.old)).answer.written }
    ensures state_after { state.new ≡ calls.state_or (calls.stepped state.old file.now (length out.old)) state.old }
    ensures out_after { out.new ≡ over (calls.stepped state.old file.now (length out.old)).answer.bytes out.old }
    ensures count_after { count.new ≡ lent.count_or (calls.stepped state.old file.now (length out.old)).answer.written count.old }
{
    let bytes = *state;
    let o = opener_state::unpack(bytes);
    let s = opener::step(o, file, out);
    let answer = s.answer;
    let next = s.next;
    match answer {
        Ok(n) => {
            *state = opener_state::pack(next);
            *count = n;
            return 0;
        }
        Err(r) => {
            let number = r.number();
            if number == 17 {
                return number;
            }
            if number == 19 {
                return number;
            }
            *state = opener_state::pack(next);
            return number;
        }
    }
}

// The figures of a KDF by its number: 0 is AES-KDF, 1 Argon2d, 2 Argon2id.
fn choose(kdf: u32, rounds: u64, memory: u64, lanes: u32) -> Chosen
    ensures { result ≡ lent.chosen kdf rounds memory lanes }
{
    if kdf == 0 {
        return Chosen::Figures(Figures::AesKdf { rounds });
    }
    if kdf == 1 {
        return Chosen::Figures(Figures::Argon2d {
            passes: rounds,
            memory,
            lanes,
        });
    }
    if kdf == 2 {
        return Chosen::Figures(Figures::Argon2id {
            passes: rounds,
            memory,
            lanes,
        });
    }
    Chosen::Unlisted
}

// The refusal of a KDF that is not listed: the version is looked at before it.
fn unlisted(minor: u16) -> u8
    ensures { result ≡ numbers.of_refusal (lent.unlisted_kdf minor) }
{
    if 1 < minor {
        return Refusal::WrongVersion(0).number();
    }
    Refusal::Unlisted(0).number()
}

// Writes a vault with the figures of its KDF.
fn write_with(
    minor: u16,
    cipher: &[u8],
    seed: &[u8],
    nonce: &[u8],
    figures: Figures,
    salt: &[u8],
    custom: &[u8],
    t: &[u8; 32],
    payload: &[u8],
    out: &mut [u8],
    count: &mut usize,
) -> u8
    ensures value { result ≡ numbers.number_of (kdbx4.writing (kdbx4.figures minor cipher.now seed.now nonce.now figures salt.now custom.now) t.now payload.now (length out.old)) }
    ensures out_after { out.new ≡ over (kdbx4.shown (kdbx4.figures minor cipher.now seed.now nonce.now figures salt.now custom.now) t.now payload.now (length out.old)) out.old }
    ensures count_after { count.new ≡ lent.count_or (kdbx4.writing (kdbx4.figures minor cipher.now seed.now nonce.now figures salt.now custom.now) t.now payload.now (length out.old)) count.old }
{
    let key = *t;
    let answer = writer::write(
        minor, cipher, seed, nonce, figures, salt, custom, key, payload, out,
    );
    match answer {
        Ok(length) => {
            *count = length;
            return 0;
        }
        Err(r) => return r.number(),
    }
}

// Writes a vault under the transformed key T: the file over the front of `out`, and its length in `count`. `rounds` are
// those of AES-KDF, or Argon2's passes; `memory` and `lanes` are Argon2's.
#[unsafe(no_mangle)]
pub extern "C" fn kdbx4_write(
    minor: u16,
    cipher: &[u8],
    seed: &[u8],
    nonce: &[u8],
    kdf: u32,
    salt: &[u8],
    rounds: u64,
    memory: u64,
    lanes: u32,
    custom: &[u8],
    t: &[u8; 32],
    payload: &[u8],
    out: &mut [u8],
    count: &mut usize,
) -> u8
    ensures value { result ≡ numbers.number_of (lent.answer_by minor (lent.chosen kdf rounds memory lanes) (λ k. kdbx4.writing (kdbx4.figures minor cipher.now seed.now nonce.now k salt.now custom.now) t.now payload.now (length out.old))) }
    ensures out_after { out.new ≡ over (lent.bytes_by (lent.chosen kdf rounds memory lanes) (λ k. kdbx4.shown (kdbx4.figures minor cipher.now seed.now nonce.now k salt.now custom.now) t.now payload.now (length out.old))) out.old }
    ensures count_after { count.new ≡ lent.count_or (lent.answer_by minor (lent.chosen kdf rounds memory lanes) (λ k. kdbx4.writing (kdbx4.figures minor cipher.now seed.now nonce.now k salt.now custom.now) t.now payload.now (length out.old))) count.old }
{
    match choose(kdf, rounds, memory, lanes) {
        Chosen::Unlisted => return unlisted(minor),
        Chosen::Figures(figures) => return write_with(
            minor, cipher, seed, nonce, figures, salt, custom, t, payload, out, count,
        ),
    }
}
