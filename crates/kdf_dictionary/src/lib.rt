// The KDF dictionary of an outer header (document 01, "Header"; document 02, Items 3 and 6): what it asks for. Writing
// is `writer`.
//
// The contracts cite specs/KdfDictionary, and specs/Answers for what an answer says. Refusals: 10 and 6 for the
// dictionary itself, then for its items 10 and 9 of the identifier; of AES-KDF 10, 11 and 20; of Argon2 10, 9 and 22.
#![tactic(auto)]

ghost use Rattle.std.specs.Prelude.{◌≡◌, ◌+◌, ◌^◌, ◌<◌, ◌≤◌, length};
ghost use Rattle.kdf_dictionary.specs.KdfDictionary as kdbx4;
ghost use Rattle.kdf_dictionary.specs.Answers as answers;

use dictionary::Fault;
use fields::Place;
use refusals::Refusal;

pub mod writer;

// The identifier of AES-KDF.
pub(crate) const AES_KDF: [u8; 16] = [
    0xC9, 0xD9, 0xF3, 0x9A, 0x62, 0x8A, 0x44, 0x60, 0xBF, 0x74, 0x0D, 0x08, 0xC1, 0x8A, 0x4F, 0xEA,
];

// The identifier of Argon2d.
pub(crate) const ARGON2D: [u8; 16] = [
    0xEF, 0x63, 0x6D, 0xDF, 0x8C, 0x29, 0x44, 0x4B, 0x91, 0xF7, 0xA9, 0xA4, 0x03, 0xE3, 0x0A, 0x0C,
];

// The identifier of Argon2id.
pub(crate) const ARGON2ID: [u8; 16] = [
    0x9E, 0x29, 0x8B, 0x19, 0x56, 0xDB, 0x47, 0x73, 0xB2, 0x3D, 0xFC, 0x3E, 0xC6, 0xF0, 0xA1, 0xE6,
];

// AES-KDF with its figures: the place of its seed in the file, and the rounds.
#[derive(Clone, Copy)]
pub struct AesKdf {
    pub seed: Place,
    pub rounds: u64,
}

// Argon2 with its figures: the place of its salt in the file, the passes, the memory in bytes, the lanes.
#[derive(Clone, Copy)]
pub struct Argon2 {
    pub salt: Place,
    pub passes: u64,
    pub memory: u64,
    pub lanes: u32,
}

// A KDF with its figures.
#[derive(Clone, Copy)]
pub enum Kdf {
    AesKdf(AesKdf),
    Argon2d(Argon2),
    Argon2id(Argon2),
}

impl Kdf {
    // Which KDF (0 AES-KDF, 1 Argon2d, 2 Argon2id), start and length of its seed or salt, rounds or passes, memory,
    // lanes.
    pub fn values(self) -> [u64; 6]
        ensures { result ≡ answers.kdf_values self }
    {
        match self {
            Kdf::AesKdf(k) => [0, k.seed.start as u64, k.seed.length as u64, k.rounds, 0, 0],
            Kdf::Argon2d(k) => [
                1,
                k.salt.start as u64,
                k.salt.length as u64,
                k.passes,
                k.memory,
                k.lanes as u64,
            ],
            Kdf::Argon2id(k) => [
                2,
                k.salt.start as u64,
                k.salt.length as u64,
                k.passes,
                k.memory,
                k.lanes as u64,
            ],
        }
    }
}

// The values of a reader's answer: those of the KDF that is asked for; zeros on a refusal.
pub fn kdf_values(kdf: Result<Kdf, Refusal>) -> [u64; 6]
    ensures { result ≡ (answers.said kdf).values }
{
    match kdf {
        Ok(k) => k.values(),
        Err(_) => [0u64; 6],
    }
}

// Which of the two forms of Argon2.
#[derive(Clone, Copy)]
pub enum Variant {
    D,
    Id,
}

// What an identifier is listed as.
#[derive(Clone, Copy)]
pub enum Listed {
    AesKdf,
    Argon2(Variant),
    Unlisted,
}

// Where the values of Argon2's items stand in the dictionary. An item that is absent or of another type has the start 0.
#[derive(Clone, Copy)]
pub struct Items {
    pub version: Place,
    pub salt: Place,
    pub passes: Place,
    pub memory: Place,
    pub lanes: Place,
}

// Where the value of a name and a type stands in a sound dictionary; the start 0 where there is none.
#[tactic(auto, unfolding(crate::specs::KdfDictionary::typed_in))]
fn item_of(d: &[u8], name: &[u8], kind: u8) -> Place
    ensures { result ≡ kdbx4.item_of d.now name.now kind }
{
    let none = Place {
        start: 0,
        length: 0,
    };
    match dictionary::search_sound(d, name) {
        Err(_) => return none,
        Ok(None) => return none,
        Ok(Some(v)) => {
            if v.kind == kind {
                return Place {
                    start: v.start,
                    length: v.length,
                };
            }
            return none;
        }
    }
}

// Whether a sound dictionary has an item of a name.
#[tactic(auto, unfolding(crate::specs::KdfDictionary::is_found))]
fn has_item(d: &[u8], name: &[u8]) -> bool
    ensures { result ≡ kdbx4.has_item d.now name.now }
{
    match dictionary::search_sound(d, name) {
        Err(_) => return false,
        Ok(None) => return false,
        Ok(Some(_)) => return true,
    }
}

// Where the item of a name begins in the file: the dictionary's front where there is none.
#[tactic(auto, unfolding(crate::specs::KdfDictionary::fault_in))]
fn fault_at(d: &[u8], p: Place, name: &[u8]) -> usize
    requires d_bound { p.start + length d.now < 2 ^ 64 }
    requires name_len_bound { length name.now ≤ 5 }
    ensures { result ≡ kdbx4.fault_at d.now p name.now }
{
    let front = 9 + name.len();
    match dictionary::search_sound(d, name) {
        Err(_) => return p.start,
        Ok(None) => return p.start,
        Ok(Some(v)) => {
            if v.start < front {
                return p.start;
            }
            return p.start + (v.start - front);
        }
    }
}

// A place in the dictionary at `p`, as a place in the file.
fn place_in(p: Place, q: Place) -> Place
    requires { p.start + q.start < 2 ^ 64 }
    ensures { result ≡ kdbx4.place_in p q }
{
    Place {
        start: p.start + q.start,
        length: q.length,
    }
}

// Where the values of Argon2's items stand.
fn argon2_items(d: &[u8]) -> Items
    ensures { result ≡ kdbx4.argon2_items d.now }
{
    let version = item_of(d, b"V", 0x04);
    let salt = item_of(d, b"S", 0x42);
    let passes = item_of(d, b"I", 0x05);
    let memory = item_of(d, b"M", 0x05);
    let lanes = item_of(d, b"P", 0x04);
    Items {
        version,
        salt,
        passes,
        memory,
        lanes,
    }
}

// Whether all of Argon2's items are there, each of its type.
fn is_complete(i: Items) -> bool
    ensures { result ≡ kdbx4.complete i }
{
    if i.version.start == 0 {
        return false;
    }
    if i.salt.start == 0 {
        return false;
    }
    if i.passes.start == 0 {
        return false;
    }
    if i.memory.start == 0 {
        return false;
    }
    i.lanes.start != 0
}

// The first of Argon2's items that is absent or of another type.
fn incomplete_at(d: &[u8], p: Place, i: Items) -> usize
    requires { p.start + length d.now < 2 ^ 64 }
    ensures { result ≡ kdbx4.fault_at d.now p (kdbx4.incomplete i) }
{
    if i.version.start == 0 {
        return fault_at(d, p, b"V");
    }
    if i.salt.start == 0 {
        return fault_at(d, p, b"S");
    }
    if i.passes.start == 0 {
        return fault_at(d, p, b"I");
    }
    if i.memory.start == 0 {
        return fault_at(d, p, b"M");
    }
    fault_at(d, p, b"P")
}

// The first of `V`, `K` and `A` that is not listed.
fn unlisted_at(d: &[u8], p: Place, v: Place) -> usize
    requires { p.start + length d.now < 2 ^ 64 }
    ensures { result ≡ kdbx4.fault_at d.now p (kdbx4.unlisted d.now v) }
{
    if words::le::u32_at(d, v.start) == 0x13 {
        if has_item(d, b"K") {
            return fault_at(d, p, b"K");
        }
        return fault_at(d, p, b"A");
    }
    fault_at(d, p, b"V")
}

// The first of Argon2's figures that is outside its bounds; too little memory for the lanes is the memory's.
fn outside_at(d: &[u8], p: Place, salt: usize, passes: u64, memory: u64, lanes: u32) -> usize
    requires { p.start + length d.now < 2 ^ 64 }
    ensures { result ≡ kdbx4.fault_at d.now p (kdbx4.outside salt passes memory lanes) }
{
    if refusals::limits::salt_fits(salt) {
        if refusals::limits::passes_fit(passes) {
            if refusals::limits::memory_fits(memory) {
                if refusals::limits::lanes_fit(lanes) {
                    return fault_at(d, p, b"M");
                }
                return fault_at(d, p, b"P");
            }
            return fault_at(d, p, b"M");
        }
        return fault_at(d, p, b"I");
    }
    fault_at(d, p, b"S")
}

// Whether Argon2 is of version 0x13, with no secret and no associated data.
#[tactic(auto, unfolding(crate::specs::KdfDictionary::argon2_listed))]
fn is_listed(d: &[u8], version: Place) -> bool
    ensures { result ≡ kdbx4.argon2_listed d.now version }
{
    if words::le::u32_at(d, version.start) == 0x13 {
        if has_item(d, b"K") {
            return false;
        }
        if has_item(d, b"A") {
            return false;
        }
        return true;
    }
    false
}

// The KDF of a form of Argon2 with its figures.
fn kdf_of(v: Variant, a: Argon2) -> Kdf
    ensures { result ≡ kdbx4.argon2_kdf v a }
{
    match v {
        Variant::D => Kdf::Argon2d(a),
        Variant::Id => Kdf::Argon2id(a),
    }
}

// Argon2's figures, read from its items.
fn figures_of(d: &[u8], p: Place, v: Variant, i: Items) -> Result<Kdf, Refusal>
    requires d_bound { p.start + length d.now < 2 ^ 64 }
    requires start_bound { p.start + i.salt.start < 2 ^ 64 }
    ensures { result ≡ kdbx4.argon2_figures d.now p v i }
{
    let q = i.salt;
    let passes = words::le::u64_at(d, i.passes.start);
    let memory = words::le::u64_at(d, i.memory.start);
    let lanes = words::le::u32_at(d, i.lanes.start);
    if refusals::limits::argon2_figures_fit(q.length, passes, memory, lanes) {
        let salt = place_in(p, q);
        return Ok(kdf_of(
            v,
            Argon2 {
                salt,
                passes,
                memory,
                lanes,
            },
        ));
    }
    Err(Refusal::FigureOutside(outside_at(d, p, q.length, passes, memory, lanes)))
}

// What the dictionary of a form of Argon2 asks for.
fn argon2_of(d: &[u8], p: Place, v: Variant) -> Result<Kdf, Refusal>
    requires { p.start + length d.now < 2 ^ 64 }
    ensures { result ≡ kdbx4.argon2_in d.now p v (kdbx4.argon2_items d.now) }
{
    let i = argon2_items(d);
    let version = i.version;
    if is_complete(i) {
        if is_listed(d, version) {
            return figures_of(d, p, v, i);
        }
        return Err(Refusal::Unlisted(unlisted_at(d, p, version)));
    }
    Err(Refusal::BrokenDictionary(incomplete_at(d, p, i)))
}

// What the dictionary of AES-KDF asks for.
fn aes_kdf_of(d: &[u8], p: Place) -> Result<Kdf, Refusal>
    requires { p.start + length d.now < 2 ^ 64 }
    ensures { result ≡ kdbx4.aes_kdf_of d.now p }
{
    let q = item_of(d, b"S", 0x42);
    let r = item_of(d, b"R", 0x05);
    if q.length != 32 {
        return Err(Refusal::BrokenDictionary(fault_at(d, p, b"S")));
    }
    if r.start == 0 {
        return Err(Refusal::BrokenDictionary(fault_at(d, p, b"R")));
    }
    let rounds = words::le::u64_at(d, r.start);
    if refusals::limits::rounds_fit(rounds) {
        if refusals::limits::rounds_suffice(rounds) {
            let seed = place_in(p, q);
            return Ok(Kdf::AesKdf(AesKdf { seed, rounds }));
        }
        return Err(Refusal::TooFewRounds(fault_at(d, p, b"R")));
    }
    Err(Refusal::TooManyRounds(fault_at(d, p, b"R")))
}

// What an identifier is listed as.
fn identify(id: &[u8]) -> Listed
    ensures { result ≡ kdbx4.listed_as id.now }
{
    let aes_kdf = AES_KDF;
    let argon2d = ARGON2D;
    let argon2id = ARGON2ID;
    if slices::same(id, &aes_kdf) {
        return Listed::AesKdf;
    }
    if slices::same(id, &argon2d) {
        return Listed::Argon2(Variant::D);
    }
    if slices::same(id, &argon2id) {
        return Listed::Argon2(Variant::Id);
    }
    Listed::Unlisted
}

// What the dictionary of a KDF asks for.
fn listed_of(d: &[u8], p: Place, kdf: Listed) -> Result<Kdf, Refusal>
    requires { p.start + length d.now < 2 ^ 64 }
    ensures { result ≡ kdbx4.listed_in d.now p kdf }
{
    match kdf {
        Listed::Unlisted => return Err(Refusal::Unlisted(fault_at(d, p, b"$UUID"))),
        Listed::AesKdf => return aes_kdf_of(d, p),
        Listed::Argon2(v) => return argon2_of(d, p, v),
    }
}

// What a sound dictionary, which stands in the file at `p`, asks for.
fn uuid_of(d: &[u8], p: Place) -> Result<Kdf, Refusal>
    requires { p.start + length d.now < 2 ^ 64 }
    ensures { result ≡ kdbx4.uuid_of d.now p }
{
    let q = item_of(d, b"$UUID", 0x42);
    if q.length != 16 {
        return Err(Refusal::BrokenDictionary(fault_at(d, p, b"$UUID")));
    }
    let kdf = identify(slices::part(d, q.start, q.length));
    listed_of(d, p, kdf)
}

// What the KDF dictionary at a place of a file asks for, or why it is refused.
pub fn read(s: &[u8], p: Place) -> Result<Kdf, Refusal>
    ensures value { result ≡ kdbx4.kdf_of s.now p }
    ensures result_value { answers.said result ≡ answers.said (kdbx4.kdf_of s.now p) }
{
    let d = slices::part(s, p.start, p.length);
    match dictionary::check(d) {
        Err(Fault::Broken(at)) => return Err(Refusal::BrokenDictionary(p.start + at)),
        Err(Fault::Repeated(at)) => return Err(Refusal::Repeated(p.start + at)),
        Ok(()) => return uuid_of(d, p),
    }
}
