// The refusal numbers and the limits of the terminal, each once (document 01, "Refusal numbers" and "Numbers of the
// terminal"; document 02, Item 3: 20 and the least rounds; Item 6: 22 and the bounds of Argon2's figures; Item 8: the
// place of a fault).
//
// An operation that may refuse answers a `Result<T, Refusal>`; what number a refusal has is said here alone, and what C is
// told of an answer by `number`, `place` and `count`. The contracts cite specs/Numbers and specs/Limits.
#![tactic(auto)]

ghost use Rattle.std.specs.Prelude.{◌≡◌};
ghost use Rattle.refusals.specs.Numbers as numbers;

pub mod limits;

// Why an operation refuses, in the order of the numbers. 2 to 11, 20 and 22 have the place of the fault, counted from
// the front of what a reader was handed; operations other than readers put 0 there.
#[derive(Clone, Copy, Debug, PartialEq, Eq)]
pub enum Refusal {
    // 1: an input, file to be written or message is over its limit
    TooLong,
    // 2: the file or payload ends inside a part
    CutShort(usize),
    // 3: a signature differs
    WrongSignature(usize),
    // 4: the version is not 4.0 or 4.1
    WrongVersion(usize),
    // 5: a size is negative or wrong for its field; end bytes differ
    WrongSize(usize),
    // 6: a header field, or a name in one dictionary, is repeated
    Repeated(usize),
    // 7: the field ID is not listed
    UnknownField(usize),
    // 8: a required field is absent at the end field, or an attachment index is past the last
    Absent(usize),
    // 9: the cipher, compression, KDF or inner algorithm is not listed
    Unlisted(usize),
    // 10: a dictionary is broken, or a KDF item is absent or of wrong type or size
    BrokenDictionary(usize),
    // 11: the rounds are above the limit
    TooManyRounds(usize),
    // 12: the header hash differs
    HeaderHash,
    // 13: the header tag differs: wrong key, or a changed header
    HeaderTag,
    // 14: a block tag differs
    BlockTag,
    // 15: bytes stand after the closing block
    TrailingBytes,
    // 16: the AES ciphertext's length is 0 or no multiple of 16, or the padding is wrong
    WrongPadding,
    // 17: the lent output is shorter than the bytes due
    NoRoom,
    // 18: no credential; a pre-hash that is not 32 bytes, or given with another
    WrongCredential,
    // 19: a step after an opener's end or after a refusal that closed it; the key asked for too early
    OutOfSequence,
    // 20: the rounds of a vault are fewer than the least
    TooFewRounds(usize),
    // 22: a KDF figure is outside its bounds
    FigureOutside(usize),
}

impl Refusal {
    // The refusal's number.
    pub fn number(self) -> u8
        ensures { result ≡ numbers.of_refusal self }
    {
        match self {
            Refusal::TooLong => 1,
            Refusal::CutShort(_) => 2,
            Refusal::WrongSignature(_) => 3,
            Refusal::WrongVersion(_) => 4,
            Refusal::WrongSize(_) => 5,
            Refusal::Repeated(_) => 6,
            Refusal::UnknownField(_) => 7,
            Refusal::Absent(_) => 8,
            Refusal::Unlisted(_) => 9,
            Refusal::BrokenDictionary(_) => 10,
            Refusal::TooManyRounds(_) => 11,
            Refusal::HeaderHash => 12,
            Refusal::HeaderTag => 13,
            Refusal::BlockTag => 14,
            Refusal::TrailingBytes => 15,
            Refusal::WrongPadding => 16,
            Refusal::NoRoom => 17,
            Refusal::WrongCredential => 18,
            Refusal::OutOfSequence => 19,
            Refusal::TooFewRounds(_) => 20,
            Refusal::FigureOutside(_) => 22,
        }
    }

    // The place of the fault: 0 where the refusal has none.
    pub fn place(self) -> usize
        ensures { result ≡ numbers.place_of self }
    {
        match self {
            Refusal::CutShort(at)
            | Refusal::WrongSignature(at)
            | Refusal::WrongVersion(at)
            | Refusal::WrongSize(at)
            | Refusal::Repeated(at)
            | Refusal::UnknownField(at)
            | Refusal::Absent(at)
            | Refusal::Unlisted(at)
            | Refusal::BrokenDictionary(at)
            | Refusal::TooManyRounds(at)
            | Refusal::TooFewRounds(at)
            | Refusal::FigureOutside(at) => at,
            Refusal::TooLong
            | Refusal::HeaderHash
            | Refusal::HeaderTag
            | Refusal::BlockTag
            | Refusal::TrailingBytes
            | Refusal::WrongPadding
            | Refusal::NoRoom
            | Refusal::WrongCredential
            | Refusal::OutOfSequence => 0,
        }
    }

    // The refusal without its place.
    pub fn unplaced(self) -> Refusal
        ensures { result ≡ numbers.unplaced self }
    {
        match self {
            Refusal::CutShort(_) => Refusal::CutShort(0),
            Refusal::WrongSignature(_) => Refusal::WrongSignature(0),
            Refusal::WrongVersion(_) => Refusal::WrongVersion(0),
            Refusal::WrongSize(_) => Refusal::WrongSize(0),
            Refusal::Repeated(_) => Refusal::Repeated(0),
            Refusal::UnknownField(_) => Refusal::UnknownField(0),
            Refusal::Absent(_) => Refusal::Absent(0),
            Refusal::Unlisted(_) => Refusal::Unlisted(0),
            Refusal::BrokenDictionary(_) => Refusal::BrokenDictionary(0),
            Refusal::TooManyRounds(_) => Refusal::TooManyRounds(0),
            Refusal::TooFewRounds(_) => Refusal::TooFewRounds(0),
            Refusal::FigureOutside(_) => Refusal::FigureOutside(0),
            unplaced => unplaced,
        }
    }
}

// The number of an answer: 0 is success.
pub fn number<T: Copy>(answer: Result<T, Refusal>) -> u8
    ensures { result ≡ numbers.number_of answer }
{
    match answer {
        Ok(_) => 0,
        Err(r) => r.number(),
    }
}

// The place of a refusal: 0 on success.
pub fn place<T: Copy>(answer: Result<T, Refusal>) -> usize
    ensures { result ≡ numbers.place_of_answer answer }
{
    match answer {
        Ok(_) => 0,
        Err(r) => r.place(),
    }
}

// How many bytes were written: 0 where it was refused.
pub fn count(answer: Result<usize, Refusal>) -> usize
    ensures { result ≡ numbers.count_of answer }
{
    match answer {
        Ok(n) => n,
        Err(_) => 0,
    }
}
