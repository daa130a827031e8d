// What a refusal means and what to do about it, in a sentence or two for the technician.
//
// The contracts cite specs/Sentences. Nothing is refused. docs/REFUSALS.md has the same sentences, and the program
// `vectors_open` prints them all.
#![tactic(auto)]

ghost use Rattle.std.specs.Prelude.{◌≡◌};
ghost use Rattle.explanations.specs.Sentences as sentences;

use refusals::Refusal;

// A text of at most 192 bytes, with zeros behind it.
#[derive(Clone, Copy)]
pub struct Sentence {
    pub text: [u8; 192],
    pub length: usize,
}

// A text as a sentence.
fn held(s: &[u8]) -> Sentence
    ensures { result ≡ sentences.held s.now }
{
    let mut text = [0u8; 192];
    slices::copy(&mut text, s);
    Sentence {
        text,
        length: s.len(),
    }
}

// The sentence of a refusal.
#[tactic(auto, unfolding(crate::specs::Sentences::ascii, crate::specs::Sentences::sentence))]
fn told(why: Refusal) -> &'static str
    ensures { result.now ≡ sentences.sentence why }
{
    match why {
        Refusal::TooLong =>
            "An input is longer than this program or terminal takes. Use a smaller vault, password or key file.",
        Refusal::CutShort(_) =>
            "The file ends too early. Copy the vault again; if it is still too short, take an older copy.",
        Refusal::WrongSignature(_) =>
            "This is not a KDBX vault. Check that the right file was named.",
        Refusal::WrongVersion(_) =>
            "The vault is not of version 4.0 or 4.1. Save it as KDBX 4 in a desktop password manager.",
        Refusal::WrongSize(_) =>
            "A part of the file has a size that it cannot have, so the file is damaged. Take another copy of the vault.",
        Refusal::Repeated(_) =>
            "The header has the same part twice, so the file is damaged. Take another copy of the vault.",
        Refusal::UnknownField(_) =>
            "The header has a part that is not known. Take another copy, or save the vault as KDBX 4 in a desktop password manager.",
        Refusal::Absent(_) =>
            "A part that is needed is not there. Take another copy of the vault; for an attachment, check its number.",
        Refusal::Unlisted(_) =>
            "The vault uses a cipher, a compression or a key derivation that is not supported. In a desktop password manager choose AES-256 or ChaCha20, AES-KDF or Argon2, no compression, and save it.",
        Refusal::BrokenDictionary(_) =>
            "The header's settings are damaged or incomplete. Take another copy, or save the vault again in a desktop password manager.",
        Refusal::TooManyRounds(_) =>
            "The vault asks for more than 4,000,000 rounds. Lower them in a desktop password manager and save it.",
        Refusal::HeaderHash =>
            "The header is damaged. Copy the vault again; if it is still damaged, take an older copy.",
        Refusal::HeaderTag =>
            "The password or the key file is not the right one, or the header was changed. Try them again; if they are right, take a copy of the vault from before.",
        Refusal::BlockTag =>
            "The contents were changed or damaged. Copy the vault again; if it stays so, take an older copy.",
        Refusal::TrailingBytes =>
            "There are bytes behind the end of the vault. Copy it again; if they stay, take an older copy.",
        Refusal::WrongPadding =>
            "The contents do not end as they must, so the program that wrote them has a fault. Save the vault again in a desktop password manager.",
        Refusal::NoRoom =>
            "There is too little memory for this vault's key, or too little room for the result. Start the program with a larger stack (docs/REFUSALS.md), or tell whoever maintains it.",
        Refusal::WrongCredential =>
            "No password and no key file was given, or a pre-hash that is not 32 bytes or stands beside another. Give the password, the key file or both.",
        Refusal::OutOfSequence =>
            "A step came after the end, or a key was asked for too early. Start again; if it happens again, tell whoever maintains this program.",
        Refusal::TooFewRounds(_) =>
            "The vault asks for fewer than 6,000 rounds. Raise them in a desktop password manager and save it.",
        Refusal::FigureOutside(_) =>
            "The vault's Argon2 settings are outside what this program takes: salt 8 to 64 bytes, 1 to 64 passes, 8 KiB a lane to 64 MiB, 1 to 16 lanes. Change them in a desktop password manager.",
    }
}

// What a refusal means, and what to do.
pub fn explain(why: Refusal) -> Sentence
    ensures { result ≡ sentences.held (sentences.sentence why) }
{
    held(told(why).as_bytes())
}
