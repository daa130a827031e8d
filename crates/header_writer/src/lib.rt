// The outer header that the writer lays down (document 01, "Header").
//
//   signatures, version | 2 cipher | 3 compression | 4 master seed | 7 nonce | 11 KDF dictionary | 12 custom | 0 end
//
// `check` makes the writer's checks of the figures, `write` lays the header, `header_len` tells its length beforehand.
// The contracts cite specs/Written, and specs/Answers for what an answer says. Refusals: 4, 9, 5, 11 and 20 of AES-KDF
// or 22 of Argon2, then 10 or 6.
#![tactic(auto)]

ghost use Rattle.std.specs.Prelude.{◌≡◌, [], ◌∷◌, ◌≤◌, length, take};
ghost use Rattle.slices.specs.Over.{laid, put_at};
ghost use Rattle.header_writer.specs.Written as written;
ghost use Rattle.header_writer.specs.Answers as answers;

use ciphers::Cipher;
use dictionary::Fault;
use kdf_dictionary::writer::Figures;
use refusals::Refusal;

// The value of a check's answer: the cipher's number; 0 on a refusal.
pub fn checked_value(checked: Result<Cipher, Refusal>) -> u8
    ensures { result ∷ [] ≡ (answers.said checked).values }
{
    match checked {
        Ok(c) => c.number(),
        Err(_) => 0,
    }
}

// A custom dictionary may be absent: it has no bytes then.
fn check_custom(c: Cipher, custom: &[u8]) -> Result<Cipher, Refusal>
    ensures { result ≡ written.checked_custom c (written.custom_verdict custom.now) }
{
    if custom.len() == 0 {
        return Ok(c);
    }
    match dictionary::check(custom) {
        Ok(()) => return Ok(c),
        Err(Fault::Broken(_)) => return Err(Refusal::BrokenDictionary(0)),
        Err(Fault::Repeated(_)) => return Err(Refusal::Repeated(0)),
    }
}

// Whether AES-KDF's seed has its size. Argon2's salt is one of its figures.
fn is_sized(figures: Figures, n: usize) -> bool
    ensures { result ≡ written.salt_sized figures n }
{
    match figures {
        Figures::AesKdf { rounds: _ } => return n == 32,
        Figures::Argon2d {
            passes: _,
            memory: _,
            lanes: _,
        } => return true,
        Figures::Argon2id {
            passes: _,
            memory: _,
            lanes: _,
        } => return true,
    }
}

// The KDF's figures, custom dictionary.
fn check_figures(c: Cipher, figures: Figures, salt: &[u8], custom: &[u8]) -> Result<Cipher, Refusal>
    ensures { result ≡ written.checked_figures c figures salt.now custom.now }
{
    match figures {
        Figures::AesKdf { rounds } => {
            if refusals::limits::rounds_fit(rounds) {
                if refusals::limits::rounds_suffice(rounds) {
                    return check_custom(c, custom);
                }
                return Err(Refusal::TooFewRounds(0));
            }
            return Err(Refusal::TooManyRounds(0));
        }
        Figures::Argon2d {
            passes,
            memory,
            lanes,
        } => {
            if refusals::limits::argon2_figures_fit(salt.len(), passes, memory, lanes) {
                return check_custom(c, custom);
            }
            return Err(Refusal::FigureOutside(0));
        }
        Figures::Argon2id {
            passes,
            memory,
            lanes,
        } => {
            if refusals::limits::argon2_figures_fit(salt.len(), passes, memory, lanes) {
                return check_custom(c, custom);
            }
            return Err(Refusal::FigureOutside(0));
        }
    }
}

// Sizes of seeds and nonce, figures, custom dictionary.
fn check_sizes(
    c: Cipher,
    seed: &[u8],
    nonce: &[u8],
    figures: Figures,
    salt: &[u8],
    custom: &[u8],
) -> Result<Cipher, Refusal>
    ensures { result ≡ written.checked_sizes c seed.now nonce.now figures salt.now custom.now }
{
    if seed.len() != 32 {
        return Err(Refusal::WrongSize(0));
    }
    if nonce.len() != c.nonce_len() {
        return Err(Refusal::WrongSize(0));
    }
    if is_sized(figures, salt.len()) {
        return check_figures(c, figures, salt, custom);
    }
    Err(Refusal::WrongSize(0))
}

// The cipher of figures that may be written, or why they may not.
#[tactic(auto, unfolding(crate::specs::Written::checked, crate::specs::Written::checked_cipher))]
pub fn check(
    minor: u16,
    cipher: &[u8],
    seed: &[u8],
    nonce: &[u8],
    figures: Figures,
    salt: &[u8],
    custom: &[u8],
) -> Result<Cipher, Refusal>
    ensures value { result ≡ written.checked minor cipher.now seed.now nonce.now figures salt.now custom.now }
    ensures result_value { answers.said result ≡ answers.said (written.checked minor cipher.now seed.now nonce.now figures salt.now custom.now) }
{
    if 1 < minor {
        return Err(Refusal::WrongVersion(0));
    }
    let c = ciphers::identify(cipher).ok_or(Refusal::Unlisted(0))?;
    check_sizes(c, seed, nonce, figures, salt, custom)
}

// The signatures and the version.
fn version_bytes(minor: u16) -> [u8; 12]
    ensures { result ≡ written.version_bytes minor }
{
    let v = words::le::bytes32(0x4_0000 + minor as u32);
    [
        0x03, 0xD9, 0xA2, 0x9A, 0x67, 0xFB, 0x4B, 0xB5, v[0], v[1], v[2], v[3],
    ]
}

// Lays the signatures and version, and the fields 2, 3 and 4: 79 bytes.
fn write_front(minor: u16, c: Cipher, seed: [u8; 32], out: &mut [u8])
    ensures { out.new ≡ laid (written.front_of minor c seed) out.old }
{
    let version = version_bytes(minor);
    let id = c.identifier();
    let none = [0u8; 4];
    slices::put(out, 0, &version);
    fields::put(out, 12, 2, &id);
    fields::put(out, 33, 3, &none);
    fields::put(out, 42, 4, &seed);
}

// Lays the custom dictionary, where there is one, and the end field.
fn write_end(out: &mut [u8], at: usize, custom: &[u8])
    requires { at ≤ 400 }
    ensures { out.new ≡ put_at at (written.end_of custom.now) out.old }
{
    let end = [0x0Du8, 0x0A, 0x0D, 0x0A];
    if custom.len() == 0 {
        fields::put(out, at, 0, &end);
        return;
    }
    fields::put(out, at, 12, custom);
    fields::put(out, at + 5 + custom.len(), 0, &end);
}

// Lays a header at the front of `out`, as far as there is room. A nonce has at most sixteen bytes and a seed or salt at
// most 64; more are not looked at.
pub fn write(
    minor: u16,
    c: Cipher,
    seed: [u8; 32],
    nonce: &[u8],
    figures: Figures,
    salt: &[u8],
    custom: &[u8],
    out: &mut [u8],
)
    ensures { out.new ≡ laid (written.header_bytes minor c seed (take 16 nonce.now) figures (take 64 salt.now) custom.now) out.old }
{
    let n = slices::part(nonce, 0, 16);
    let mut kdf = [0u8; 171];
    kdf_dictionary::writer::write_kdf(figures, salt, &mut kdf);
    let length = kdf_dictionary::writer::kdf_len(figures, salt);
    let at = 84 + n.len();
    write_front(minor, c, seed, out);
    fields::put(out, 79, 7, n);
    fields::put(out, at, 11, slices::part(&kdf, 0, length));
    write_end(out, at + 5 + length, custom);
}

// How many bytes a header with such a KDF and such a custom dictionary has.
pub fn header_len(c: Cipher, figures: Figures, salt: &[u8], custom: &[u8]) -> usize
    ensures { result ≡ written.header_length c figures (length (take 64 salt.now)) (length custom.now) }
{
    let n = 98 + c.nonce_len() + kdf_dictionary::writer::kdf_len(figures, salt);
    if custom.len() == 0 {
        return n;
    }
    n + 5 + custom.len()
}
