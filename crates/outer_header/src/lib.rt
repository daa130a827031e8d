// The outer header of a KDBX 4 file (document 01, "Header"): reading.
//
//   signatures, version | ID, size, value | ID, size, value | … | 00, 4, 0D 0A 0D 0A
//
// The contracts cite specs/Kdbx4Header, and specs/Answers for what an answer says. Values are told by their places in
// the file, and nothing is copied. Refusals: 1 to 11, 20 and 22, in the order of documents 01 and 02; fields may come
// in any order.
#![tactic(auto)]

ghost use Rattle.std.specs.Prelude.{◌≡◌};
ghost use Rattle.outer_header.specs.Kdbx4Header as kdbx4;
ghost use Rattle.outer_header.specs.Answers as answers;

use ciphers::Cipher;
use dictionary::Fault;
use fields::Place;
use kdf_dictionary::Kdf;
use refusals::Refusal;
use walk::Fields;

pub mod walk;

// What an accepted header says. A custom dictionary that is absent has the start 0.
#[derive(Clone, Copy)]
pub struct Header {
    pub minor: u8,
    pub cipher: Cipher,
    pub seed: Place,
    pub nonce: Place,
    pub kdf: Kdf,
    pub kdf_dictionary: Place,
    pub custom: Place,
    pub length: usize,
}

impl Header {
    // Minor version, cipher, length; start and length of seed, nonce, KDF dictionary and custom dictionary; the KDF's
    // values.
    pub fn values(self) -> [u64; 17]
        ensures { result ≡ answers.values_of self }
    {
        let c = self.cipher;
        let kdf = self.kdf;
        let k = kdf.values();
        [
            self.minor as u64,
            c.number() as u64,
            self.length as u64,
            self.seed.start as u64,
            self.seed.length as u64,
            self.nonce.start as u64,
            self.nonce.length as u64,
            self.kdf_dictionary.start as u64,
            self.kdf_dictionary.length as u64,
            self.custom.start as u64,
            self.custom.length as u64,
            k[0],
            k[1],
            k[2],
            k[3],
            k[4],
            k[5],
        ]
    }
}

// The values of a reader's answer: those of the header; zeros on a refusal.
pub fn header_values(header: Result<Header, Refusal>) -> [u64; 17]
    ensures { result ≡ (answers.said header).values }
{
    match header {
        Ok(h) => h.values(),
        Err(_) => [0u64; 17],
    }
}

// Whether every required field is there.
fn is_complete(f: Fields) -> bool
    ensures { result ≡ kdbx4.complete f }
{
    if f.cipher.start == 0 {
        return false;
    }
    if f.compression.start == 0 {
        return false;
    }
    if f.seed.start == 0 {
        return false;
    }
    if f.nonce.start == 0 {
        return false;
    }
    f.kdf.start != 0
}

// Whether a custom dictionary, where it is given, is sound.
fn custom_of(s: &[u8], p: Place) -> Result<(), Refusal>
    ensures { result ≡ kdbx4.custom_of s.now p }
{
    if p.start != 0 {
        match dictionary::check(slices::part(s, p.start, p.length)) {
            Ok(()) => return Ok(()),
            Err(Fault::Broken(at)) => return Err(Refusal::BrokenDictionary(p.start + at)),
            Err(Fault::Repeated(at)) => return Err(Refusal::Repeated(p.start + at)),
        }
    }
    Ok(())
}

// The header's figures, where both dictionaries are right.
fn figures(s: &[u8], f: Fields, minor: u8, end: usize, c: Cipher) -> Result<Header, Refusal>
    ensures { result ≡ kdbx4.figures s.now f minor end c }
{
    let dictionary = f.kdf;
    let custom = f.custom;
    let kdf = kdf_dictionary::read(s, dictionary)?;
    match custom_of(s, custom) {
        Err(x) => return Err(x),
        Ok(()) => {
            return Ok(Header {
                minor,
                cipher: c,
                seed: f.seed,
                nonce: f.nonce,
                kdf,
                kdf_dictionary: dictionary,
                custom,
                length: end,
            });
        }
    }
}

// A header whose cipher is looked up: the cipher, then the compression, then the nonce's size.
#[tactic(auto, unfolding(crate::specs::Kdbx4Header::identified))]
fn identified(
    s: &[u8],
    f: Fields,
    minor: u8,
    end: usize,
    id: Option<Cipher>,
) -> Result<Header, Refusal>
    ensures { result ≡ kdbx4.identified s.now f minor end id }
{
    let cipher = f.cipher;
    let c = id.ok_or(Refusal::Unlisted(fields::begin(cipher)))?;
    let plain = words::le::u32_at(s, f.compression.start) == 0;
    let sized = f.nonce.length == c.nonce_len();
    if plain {
        if sized {
            return figures(s, f, minor, end, c);
        }
        let q = f.nonce;
        return Err(Refusal::WrongSize(fields::begin(q)));
    }
    let p = f.compression;
    Err(Refusal::Unlisted(fields::begin(p)))
}

// Where the end field begins, whose last byte is before `end`.
fn end_field(end: usize) -> usize
    ensures { result ≡ kdbx4.end_field end }
{
    if end < 9 {
        return 0;
    }
    end - 9
}

// A header whose end field is reached.
fn judge(s: &[u8], f: Fields, minor: u8, end: usize) -> Result<Header, Refusal>
    ensures { result ≡ kdbx4.judged s.now f minor end }
{
    if is_complete(f) {
        let p = f.cipher;
        let id = ciphers::identify(slices::part(s, p.start, p.length));
        return identified(s, f, minor, end, id);
    }
    Err(Refusal::Absent(end_field(end)))
}

// The fields of a file of a known version.
fn body(s: &[u8], minor: u8) -> Result<Header, Refusal>
    ensures { result ≡ kdbx4.body s.now minor }
{
    let (f, end) = walk::walk(s)?;
    judge(s, f, minor, end)
}

// The header of a file, or why it is refused.
pub fn read(s: &[u8]) -> Result<Header, Refusal>
    ensures value { result ≡ kdbx4.header s.now }
    ensures result_value { answers.said result ≡ answers.said (kdbx4.header s.now) }
{
    if refusals::limits::file_fits(s.len()) {
        if s.len() < 12 {
            return Err(Refusal::CutShort(s.len()));
        }
        if words::le::u32_at(s, 0) == 0x9AA2_D903 {
            if words::le::u32_at(s, 4) == 0xB54B_FB67 {
                let version = words::le::u32_at(s, 8);
                if version == 0x4_0000 {
                    return body(s, 0);
                }
                if version == 0x4_0001 {
                    return body(s, 1);
                }
                return Err(Refusal::WrongVersion(8));
            }
            return Err(Refusal::WrongSignature(4));
        }
        return Err(Refusal::WrongSignature(0));
    }
    Err(Refusal::TooLong)
}
